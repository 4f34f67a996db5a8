// Numbers of the weights of a collection, for callers that have judged it.
ghost use Rattle.std.specs.Prelude.{map, ◌≡◌, ◌*◌, ◌≤◌, ◌<◌, length};
ghost use Rattle.lists.specs.Count.{sum};
ghost use Rattle.lists.specs.Every.{All};
ghost use Rattle.lists.specs.Limits.{most_letters};
ghost use Rattle.collection.specs.Ready.{Strung};
ghost use Rattle.runs.specs.Runs.{run_count};
ghost use Rattle.sorting.specs.Keys.{key_at};
ghost use Rattle.summary_counts.specs.Counts.{distinct as distinct_in, largest as largest_of, bits_for, bits_of};
ghost use Rattle.summary_counts.specs.Inner.{inner_from, Weighed};

// The sum of all weights, which may pass 32 bits.
pub fn total(weights: &[u32]) -> usize
    requires { Weighed weights.now }
    ensures { result ≡ sum weights.now }
{
    weights.iter().map(|w| *w as usize).sum()
}

// The runs inside each string, together (R).
pub fn inner_runs(k: usize, ends: &[u32], weights: &[u32]) -> usize
    requires { Strung k ends.now weights.now }
    ensures { (result ≡ inner_from k 0 ends.now weights.now) × (result ≤ length weights.now) × (length ends.now ≤ result) }
{
    let mut before: usize = 0;
    let mut passed: usize = 0;
    let mut r: usize = 0;
    for end in ends {
        let e = *end as usize;
        let to = passed + (e + 1 - (before + k));
        r += runs::inner::count_runs(&weights[passed..to]);
        before = e;
        passed = to;
    }
    r
}

// The largest weight, 0 where there is none.
fn largest(weights: &[u32]) -> u32
    ensures { result ≡ largest_of weights.now }
{
    weights.iter().copied().max().unwrap_or(0)
}

// The base-2 logarithm of a weight, rounded up.
fn bits_for(w: u32) -> usize
    ensures { result ≡ bits_for w }
{
    let most = w as usize;
    let mut b: usize = 0;
    let mut p: usize = 1;
    while p < most {
        p = p * 2;
        b += 1;
    }
    b
}

// Replaces each id by its weight.
fn weigh_ids(weights: &[u32], ids: &mut [u32])
    requires { All (λ x. x < length weights.now) ids.old }
    ensures { ids.new ≡ map (key_at weights.now) ids.old }
{
    for id in ids.iter_mut() {
        *id = weights[*id as usize];
    }
}

// The runs of the weights in the order of the ids; the ids are lost.
fn runs_by(weights: &[u32], ids: &mut [u32]) -> usize
    requires { All (λ x. x < length weights.now) ids.old }
    ensures { result ≡ run_count (map (key_at weights.now) ids.old) }
{
    weigh_ids(weights, ids);
    runs::inner::count_runs(ids)
}

// How many weights are different: in their order each is one run. The first 2n entries of work hold the ids that are sorted by them, and a buffer; what is left
// there is not promised.
pub fn distinct(weights: &[u32], work: &mut [u32]) -> usize
    requires { Weighed weights.now × (2 * length weights.now ≤ length work.old) }
    ensures { (result ≡ distinct_in weights.now) × (result ≤ length weights.now) }
{
    let n = weights.len();
    let (ids, rest) = work.split_at_mut(n);
    let buf = &mut rest[..n];
    sorting::inner::number_ids(ids);
    sorting::inner::sort_by_weight(weights, ids, buf);
    runs_by(weights, ids)
}

// The bits of so many distinct weights: each takes the logarithm of the largest.
pub fn bits(distinct: usize, weights: &[u32]) -> usize
    requires { (distinct ≡ distinct_in weights.now) × (distinct ≤ most_letters) }
    ensures { result ≡ bits_of weights.now }
{
    distinct * bits_for(largest(weights))
}
