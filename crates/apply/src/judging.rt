// Judging the tables of APPLY.
ghost use Rattle.std.specs.Prelude.{◌≡◌};
ghost use Rattle.collection.specs.Lent.{collection_in};
ghost use Rattle.collection.specs.Tables.{rooms};
ghost use Rattle.apply.specs.Apply.{tables_verdict};

use collection::{Collection, Refusal};

// 2 to 6, then 1: the new tables, then work.
#[tactic(auto, unfolding(crate::specs::Apply::tables_verdict, collection::specs::Verdict::and_then))]
pub(crate) fn judge_tables(
    given: Collection,
    new_letters: usize,
    new_ends: usize,
    new_weights: usize,
    work: usize,
) -> Result<(), Refusal>
    ensures { result ≡ tables_verdict (collection_in given.entry) (rooms new_letters new_ends new_weights) work }
{
    given.judge()?;
    collection::judge_rooms(
        new_letters,
        new_ends,
        new_weights,
        given.letters.len(),
        given.ends.len(),
        given.weights.len(),
    )?;
    collection::judge_room(work, given.ends.len())
}
