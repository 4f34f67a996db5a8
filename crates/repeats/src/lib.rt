// CHECK: a collection is judged, and no word in it may repeat, turned or not.
#![tactic(auto)]

pub mod inner; // the search for a repeated word, for callers that have judged their collection

ghost use Rattle.std.specs.Prelude.{◌≡◌, Ok, Err};
ghost use Rattle.collection.specs.Lent.{collection_in};
ghost use Rattle.collection.specs.Verdict.{at_place, settle};
ghost use Rattle.collection.specs.declared.refusal.Refusal.TheVariants.{Repeated};
ghost use Rattle.repeats.specs.Check.{check_verdict, check_of, outcome};

use collection::{Collection, Refusal};

// 2 to 6, then 1: `room` entries of work are lent.
#[tactic(auto, unfolding(crate::specs::Check::check_verdict, collection::specs::Verdict::and_then))]
fn judge_check(given: Collection, room: usize) -> Result<(), Refusal>
    ensures { result ≡ check_verdict (collection_in given.entry) room }
{
    given.judge()?;
    let n = collection::inner::kmer_count(given.k, given.letters.len(), given.ends.len());
    collection::judge_room(room, 4 * n)
}

// 7: a word repeats, first at a handle; 0 where none does.
#[tactic(auto, unfolding(collection::specs::Verdict::settle, collection::specs::Verdict::at_place))]
fn answer(repeat: usize, n: usize) -> Result<usize, Refusal>
    ensures { result ≡ settle (at_place Repeated repeat) Err (Ok n) }
{
    if repeat == 0 {
        return Ok(n);
    }
    Err(Refusal::Repeated { place: repeat })
}

// CHECK: 2 to 6, 1, then 7, at the lowest handle whose word or its reverse complement stands earlier; else how many k-mers it looked at. After 7 and after
// success the first 4n entries of work are 0.
#[tactic(auto, unfolding(crate::specs::Check::check_of, collection::specs::Verdict::settle), using(crate::proofs::Checked::check_started))]
pub fn check(given: Collection, work: &mut [u32]) -> Result<usize, Refusal>
    ensures { outcome result work.new ≡ check_of (collection_in given.entry) work.old }
{
    judge_check(given, work.len())?;
    let n = given.weights.len();
    let repeat = inner::first_repeat(given.spelling(), n, work);
    collection::inner::zero_first(work, 4 * n);
    answer(repeat, n)
}
