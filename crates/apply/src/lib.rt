// APPLY writes a collection's strings in a new order, some of them turned, into new tables.
#![tactic(auto)]

mod judging;

ghost use Rattle.std.specs.Prelude.{◌≡◌, length};
ghost use Rattle.apply.specs.Apply.{lent, outcome, placed_of, apply_of};
ghost use Rattle.apply.specs.Ready.{Ready};
ghost use Rattle.collection.specs.Lent.{collection_in};
ghost use Rattle.collection.specs.Tables.{tables, rooms_of};

use collection::{Collection, Refusal};

// What APPLY answers: how many letters, ends and weights it filled.
#[derive(Clone, Copy, Debug, PartialEq, Eq)]
pub struct Filled {
    pub letters: usize,
    pub ends: usize,
    pub weights: usize,
}

// 8, then each string written at its place. Work is zero afterwards in both cases.
#[tactic(auto, unfolding(crate::specs::Apply::placed_of, collection::specs::Verdict::settle))]
fn apply_places(
    given: Collection,
    signed: &[i32],
    new_letters: &mut [u8],
    new_ends: &mut [u32],
    new_weights: &mut [u32],
    work: &mut [u32],
) -> Result<Filled, Refusal>
    requires { Ready (collection_in given) (rooms_of (tables new_letters.old new_ends.old new_weights.old)) (length work.old) }
    ensures { outcome result (lent (tables new_letters.new new_ends.new new_weights.new) work.new)
        ≡ placed_of (collection_in given.entry) signed.now (lent (tables new_letters.old new_ends.old new_weights.old) work.old) }
{
    let m = given.ends.len();
    if let Err(refusal) = apply_places::inner::judge_places(signed, work, m) {
        collection::inner::zero_first(work, m);
        return Err(refusal);
    }
    apply_strings::inner::place_strings(given, signed, work, new_letters, new_ends, new_weights);
    collection::inner::zero_first(work, m);
    Ok(Filled {
        letters: given.letters.len(),
        ends: m,
        weights: given.weights.len(),
    })
}

// APPLY: each string once, at its place, turned where the place is negative, its weights turned with it.
#[tactic(auto, unfolding(crate::specs::Apply::apply_of, collection::specs::Verdict::settle), using(crate::proofs::Applying::tables_good))]
pub fn apply(
    given: Collection,
    signed: &[i32],
    new_letters: &mut [u8],
    new_ends: &mut [u32],
    new_weights: &mut [u32],
    work: &mut [u32],
) -> Result<Filled, Refusal>
    ensures { outcome result (lent (tables new_letters.new new_ends.new new_weights.new) work.new)
        ≡ apply_of (collection_in given.entry) signed.now (lent (tables new_letters.old new_ends.old new_weights.old) work.old) }
{
    judging::judge_tables(
        given,
        new_letters.len(),
        new_ends.len(),
        new_weights.len(),
        work.len(),
    )?;
    apply_places(given, signed, new_letters, new_ends, new_weights, work)
}
