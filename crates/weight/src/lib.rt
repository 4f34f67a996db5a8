// A run list as a caller lends it, in two tables: judging it (12), and WEIGHT, the weight that it gives a handle.
#![tactic(auto)]

pub mod inner;
mod judging;

ghost use Rattle.std.specs.Prelude.{◌≡◌};
ghost use Rattle.weight.specs.RunList.{run_list_verdict};
ghost use Rattle.weight.specs.Weight.{weight_answer};

use collection::Refusal;

// A run list as a caller lends it: the weight and the first handle of each run, in two tables.
#[derive(Clone, Copy)]
pub struct RunList<'a> {
    pub weights: &'a [u32],
    pub firsts: &'a [u32],
}

// 12: a bad run list of n k-mers.
#[tactic(auto, unfolding(crate::specs::RunList::run_list_verdict))]
pub fn judge_run_list(list: RunList, n: usize) -> Result<(), Refusal>
    ensures { result ≡ run_list_verdict n list.entry.weights.now list.entry.firsts.now }
{
    if n <= 1048576 {
        if judging::is_run_list(list, n) {
            return Ok(());
        }
    }
    Err(Refusal::RunList)
}

// WEIGHT: the weight of the last run that starts at or before the handle. The whole list is judged first.
#[tactic(auto, unfolding(crate::specs::Weight::weight_answer, collection::specs::Verdict::settle, collection::specs::Verdict::and_then))]
pub fn weight(list: RunList, n: usize, handle: usize) -> Result<u32, Refusal>
    ensures { result ≡ weight_answer list.entry.weights.now list.entry.firsts.now n handle }
{
    judge_run_list(list, n)?;
    collection::judge_handle(n, handle)?;
    Ok(inner::weight_at(list, n, handle))
}
