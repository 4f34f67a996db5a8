// Counting and listing the runs of weights, for callers that have judged them.
ghost use Rattle.std.specs.Prelude.{◌≡◌, ◌≤◌, length};
ghost use Rattle.lists.specs.Fill.{fill};
ghost use Rattle.lists.specs.Limits.{most_letters};
ghost use Rattle.runs.specs.Runs.{run_count, weights_of_runs, firsts_of_runs};

// How many runs.
pub fn count_runs(weights: &[u32]) -> usize
    ensures { result ≡ run_count weights.now }
{
    let Some((first, rest)) = weights.split_first() else {
        return 0;
    };
    let mut w = *first;
    let mut n = 1;
    for v in rest {
        if *v != w {
            n += 1;
            w = *v;
        }
    }
    n
}

// The run list in the first entries of two tables.
pub fn fill_runs(weights: &[u32], run_weights: &mut [u32], run_firsts: &mut [u32])
    requires weights_len_bound { length weights.now ≤ most_letters }
    requires weights_in_bounds { (run_count weights.now ≤ length run_weights.old) × (run_count weights.now ≤ length run_firsts.old) }
    ensures weights_filled { run_weights.new ≡ fill (weights_of_runs weights.now) run_weights.old }
    ensures firsts_filled { run_firsts.new ≡ fill (firsts_of_runs weights.now) run_firsts.old }
{
    let Some((first, rest)) = weights.split_first() else {
        return;
    };
    let mut w = *first;
    run_weights[0] = w;
    run_firsts[0] = 1;
    let mut at = 1;
    // Handles count from 1, so entry i of the rest has handle i + 2. A weight is read once: named again behind the stores it would be read again.
    for (i, weight) in rest.iter().enumerate() {
        let v = *weight;
        if v != w {
            run_weights[at] = v;
            run_firsts[at] = (i + 2) as u32;
            at += 1;
            w = v;
        }
    }
}
