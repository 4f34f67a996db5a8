// The numbers of a judged collection: CHECK, COVER, and what there is to count. For callers that have judged it and have the tables.
ghost use Rattle.std.specs.Prelude.{◌≡◌, ◌*◌, ◌≤◌, length};
ghost use Rattle.collection.specs.Lent.{collection_in};
ghost use Rattle.collection.specs.Collection.{spelling_of};
ghost use Rattle.collection.specs.Judge.{Passes};
ghost use Rattle.collection.specs.Ready.{Strung};
ghost use Rattle.collection.specs.Verdict.{at_place};
ghost use Rattle.collection.specs.declared.refusal.Refusal.TheVariants.{Repeated};
ghost use Rattle.repeats.specs.Check.{first_repeat};
ghost use Rattle.summary_counts.specs.Inner.{Weighed};
ghost use Rattle.summary.specs.Summary.{checked_of};
ghost use Rattle.summary.specs.Inner.{numbers_from};

use collection::{Collection, Refusal};
use summary_text::Numbers;

// The numbers of a collection, of which the least number of paths is known.
fn count_all(k: usize, ends: &[u32], weights: &[u32], paths: usize, work: &mut [u32]) -> Numbers
    requires strung { Strung k ends.now weights.now × Weighed weights.now }
    requires paths_in_bounds { (paths ≤ length ends.now) × (3 * length weights.now ≤ length work.old) }
    ensures { result ≡ numbers_from k ends.now weights.now paths }
{
    let m = ends.len();
    let inner = summary_counts::inner::inner_runs(k, ends, weights);
    let distinct = summary_counts::inner::distinct(weights, work);
    Numbers {
        strings: m,
        kmers: weights.len(),
        total: summary_counts::inner::total(weights),
        inner,
        given: runs::inner::count_runs(weights),
        paths,
        least: inner - m + paths,
        distinct,
        bits: summary_counts::inner::bits(distinct, weights),
    }
}

// CHECK of a judged collection, with room for it: 7 at the first repeated word, where there is one.
#[tactic(auto, unfolding(collection::specs::Verdict::settle, collection::specs::Verdict::at_place), using(crate::proofs::Checked::words_checked))]
fn check_words(given: Collection, work: &mut [u32]) -> Result<(), Refusal>
    requires passes { Passes (collection_in given) }
    requires work_in_bounds { 4 * length given.weights.now ≤ length work.old }
    ensures { result ≡ at_place Repeated (first_repeat (spelling_of (collection_in given.entry))) }
{
    repeats::check(given, work)?;
    Ok(())
}

// What there is to say of a judged collection: its first repeated word, or its numbers. The places are COVER's.
pub fn tell_collection(
    given: Collection,
    places: &mut [i32],
    work: &mut [u32],
) -> Result<Numbers, Refusal>
    requires passes { Passes (collection_in given) }
    requires ends_in_bounds { (length given.ends.now ≤ length places.old) × (16 * length given.ends.now ≤ length work.old)
        × (4 * length given.weights.now ≤ length work.old) }
    ensures { result ≡ checked_of (collection_in given.entry) }
{
    check_words(given, work)?;
    let covered = cover::cover(given, places, work)?;
    Ok(count_all(given.k, given.ends, given.weights, covered.paths, work))
}
