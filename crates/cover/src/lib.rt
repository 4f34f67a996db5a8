// COVER: an order and turning of the strings of a collection with the fewest paths, as signed places.
#![tactic(auto)]

mod covering;

ghost use Rattle.std.specs.Prelude.{◌≡◌};
ghost use Rattle.cover.specs.Cover.{cover_verdict, Promise};
ghost use Rattle.collection.specs.Lent.{collection_in};

use collection::{Collection, Refusal};

// What COVER answers: how many places it filled, and how many paths they make.
#[derive(Clone, Copy, Debug, PartialEq, Eq)]
pub struct Covered {
    pub places: usize,
    pub paths: usize,
}

// Judges the collection (2 to 6), then the room for the places and the work (1).
#[tactic(auto, unfolding(crate::specs::Cover::cover_verdict, collection::specs::Verdict::and_then))]
fn judge_cover(given: Collection, places: &[i32], work: &[u32]) -> Result<(), Refusal>
    ensures { result ≡ cover_verdict (collection_in given.entry) places.now work.now }
{
    given.judge()?;
    let m = given.ends.len();
    collection::judge_room(places.len(), m)?;
    collection::judge_room(work.len(), 16 * m)
}

// COVER: fills one signed place for each string, so that the strings in their new order, turned where the place is negative, have the fewest paths.
#[tactic(auto, using(crate::proofs::Promised::cover_good))]
pub fn cover(given: Collection, places: &mut [i32], work: &mut [u32]) -> Result<Covered, Refusal>
    ensures { Promise (collection_in given.entry) places.old work.old result places.new work.new }
{
    judge_cover(given, places, work)?;
    let m = given.ends.len();
    if m == 0 {
        return Ok(Covered {
            places: 0,
            paths: 0,
        });
    }
    let need = 16 * m;
    let paths = covering::cover_strings(
        given.k,
        given.ends,
        given.weights,
        &mut places[..m],
        &mut work[..need],
    );
    Ok(Covered { places: m, paths })
}
