// RUNS: the runs of a collection's weights, across strings.
#![tactic(auto)]

pub mod inner;

ghost use Rattle.std.specs.Prelude.{◌≡◌};
ghost use Rattle.runs.specs.Calls.{outcome, runs_of};
ghost use Rattle.collection.specs.Lent.{collection_in};

use collection::{Collection, Refusal};

// RUNS: each run's weight and first handle; answers how many runs it filled in each table. A run may cross strings.
#[tactic(auto, unfolding(crate::specs::Calls::runs_of, crate::specs::Calls::runs_verdict, collection::specs::Verdict::settle, collection::specs::Verdict::and_then))]
pub fn runs(
    given: Collection,
    run_weights: &mut [u32],
    run_firsts: &mut [u32],
) -> Result<usize, Refusal>
    ensures { outcome result run_weights.new run_firsts.new
        ≡ runs_of (collection_in given.entry) run_weights.old run_firsts.old }
{
    given.judge()?;
    let n = inner::count_runs(given.weights);
    collection::judge_room(run_weights.len(), n)?;
    collection::judge_room(run_firsts.len(), n)?;
    inner::fill_runs(given.weights, run_weights, run_firsts);
    Ok(n)
}
