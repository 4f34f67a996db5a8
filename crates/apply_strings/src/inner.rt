// All strings written in their new order, for callers that have judged the collection and the places.
ghost use Rattle.std.specs.Prelude.{◌≡◌, ◌<◌, ◌≤◌, length};
ghost use Rattle.collection.specs.Lent.{collection_in};
ghost use Rattle.collection.specs.Ready.{Long};
ghost use Rattle.collection.specs.Tables.{tables, filled_by};
ghost use Rattle.apply_strings.specs.Parts.{start_of, PartOf};
ghost use Rattle.apply_strings.specs.Placeable.{Placeable};
ghost use Rattle.apply_strings.specs.Reordered.{reordered};

use crate::writing::{write_column, write_letters};
use apply_places::inner::is_turned;
use collection::Collection;

// Where a string stands: its letters from `start` to `end`, its weights from `first` to `last`; and whether its place turns it.
#[derive(Clone, Copy, Debug, PartialEq, Eq)]
struct Part {
    start: usize,
    end: usize,
    first: usize,
    last: usize,
    turned: bool,
}

// String i, counted from 0, starts where the one before ends.
#[tactic(auto, unfolding(collection_faults::specs::Faults::last_end), using(collection::proofs::Kmers::last_take))]
fn start_of(ends: &[u32], i: usize) -> usize
    requires { i < length ends.now }
    ensures { result ≡ start_of ends.now i }
{
    if i == 0 {
        return 0;
    }
    ends[i - 1] as usize
}

// The part of string i.
#[tactic(auto, using(crate::proofs::Parts::string_long, crate::proofs::Parts::weights_before))]
fn part_of(k: usize, ends: &[u32], signed: &[i32], i: usize) -> Part
    requires { (Long k ends.now) × (i < length ends.now) × (length signed.now ≡ length ends.now) }
    ensures { PartOf k ends.now signed.now i result }
{
    let start = start_of(ends, i);
    let end = ends[i] as usize;
    let first = start - i * (k - 1);
    Part {
        start,
        end,
        first,
        last: first + (end + 1 - (start + k)),
        turned: is_turned(signed[i]),
    }
}

// Each new place in turn: the string that stands there is written behind those before it.
pub fn place_strings(
    given: Collection,
    signed: &[i32],
    work: &[u32],
    new_letters: &mut [u8],
    new_ends: &mut [u32],
    new_weights: &mut [u32],
)
    requires placeable { Placeable (collection_in given) signed.now work.now }
    requires room { (length given.letters.now ≤ length new_letters.old) × (length given.ends.now ≤ length new_ends.old)
        × (length given.weights.now ≤ length new_weights.old) }
    ensures { tables new_letters.new new_ends.new new_weights.new
        ≡ filled_by (reordered (collection_in given.entry) signed.now) (tables new_letters.old new_ends.old new_weights.old) }
{
    let mut at = 0;
    let mut kmer = 0;
    for j in 0..given.ends.len() {
        let Part {
            start,
            end,
            first,
            last,
            turned,
        } = part_of(given.k, given.ends, signed, work[j] as usize - 1);
        write_letters(turned, &given.letters[start..end], new_letters, at);
        write_column(turned, &given.weights[first..last], new_weights, kmer);
        at += end - start;
        kmer += last - first;
        new_ends[j] = at as u32;
    }
}
