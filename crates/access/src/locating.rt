// Where the k-mer of a handle stands.
ghost use Rattle.std.specs.Prelude.{◌≡◌, ◌+◌, ◌<◌, ◌≤◌, length, take};
ghost use Rattle.access.specs.Access.{access_verdict};
ghost use Rattle.collection.specs.Lent.{spelling_in};
ghost use Rattle.collection.specs.Kmers.{kmers, position_of};
ghost use Rattle.collection.specs.Ready.{Long};
ghost use Rattle.access.specs.Located.{Holds};

use collection::{Refusal, Spelling};

// The verdict of ACCESS: 2, 3, 4, then 9.
#[tactic(auto, unfolding(crate::specs::Access::access_verdict, collection::specs::Verdict::and_then))]
pub(crate) fn judge_access(given: Spelling, handle: usize) -> Result<(), Refusal>
    ensures { result ≡ access_verdict (spelling_in given.entry) handle }
{
    given.judge()?;
    let n = collection::inner::kmer_count(given.k, given.letters.len(), given.ends.len());
    collection::judge_handle(n, handle)
}

// How many k-mers the strings up to string i (from 0) have, itself included.
fn kmers_up_to(k: usize, ends: &[u32], i: usize) -> usize
    requires long { Long k ends.now }
    requires i_in_bounds { i < length ends.now }
    ensures { result ≡ length (kmers k (take (i + 1) ends.now)) }
{
    ends[i] as usize - (i + 1) * (k - 1)
}

// The string (from 0) that has the k-mer of a handle. The counts of k-mers rise from string to string, so it is found by halving.
fn string_of(k: usize, ends: &[u32], handle: usize) -> usize
    requires long { Long k ends.now }
    requires le_handle { (1 ≤ handle) × (handle ≤ length (kmers k ends.now)) }
    ensures { Holds k ends.now handle result }
{
    let mut low = 0;
    let mut high = ends.len() - 1;
    while low < high {
        let mid = low + (high - low) / 2;
        if kmers_up_to(k, ends, mid) < handle {
            low = mid + 1;
        } else {
            high = mid;
        }
    }
    low
}

// The position of the k-mer of a handle: each string before its own has k - 1 letters more than k-mers.
pub(crate) fn position(k: usize, ends: &[u32], handle: usize) -> usize
    requires long { Long k ends.now }
    requires le_handle { (1 ≤ handle) × (handle ≤ length (kmers k ends.now)) }
    ensures { result ≡ position_of k ends.now handle }
{
    let i = string_of(k, ends, handle);
    handle - 1 + i * (k - 1)
}
