// WEIGHT over one list of records, each a weight and its first handle. One pass judges the list and looks the handle up.
#![tactic(auto)]

ghost use Rattle.std.specs.Prelude.{◌≡◌, map};
ghost use Rattle.weight.specs.Weight.{weight_answer};
ghost use Rattle.weight_records.specs.Records.{weight_in, first_in};
ghost use Rattle.weight_records.specs.Pass.{fits, found_by, started, stepped, list_verdict, finished};

use collection::Refusal;

// A run: its weight and its first handle.
#[derive(Clone, Copy, Debug, PartialEq, Eq)]
pub struct Run {
    pub weight: u32,
    pub first: u32,
}

// What is known of the runs that were read: whether they can begin a run list of n k-mers, whether there was one, the last one's
// weight and first handle, and the weight of the last one that starts at or before the handle.
#[derive(Clone, Copy, Debug, PartialEq, Eq)]
struct State {
    good: bool,
    begun: bool,
    weight: u32,
    first: u32,
    found: u32,
    n: usize,
    handle: usize,
}

// Whether the run may come next.
fn fits_next(s: State, r: Run) -> bool
    ensures { result ≡ fits s r }
{
    if s.begun {
        return weight::inner::may_follow(s.n, s.weight, s.first, r.weight, r.first);
    }
    weight::inner::may_begin(s.n, r.weight, r.first)
}

// The weight of the last run that starts at or before the handle, once the run was read.
fn found_next(s: State, r: Run) -> u32
    ensures { result ≡ found_by s r }
{
    if r.first as usize <= s.handle {
        return r.weight;
    }
    s.found
}

// Before any run.
fn start(n: usize, handle: usize) -> State
    ensures { result ≡ started n handle }
{
    State {
        good: n <= 1048576,
        begun: false,
        weight: 0,
        first: 0,
        found: 0,
        n,
        handle,
    }
}

// After one more run.
fn step(s: State, r: Run) -> State
    ensures { result ≡ stepped s r }
{
    let fit = fits_next(s, r);
    let found = found_next(s, r);
    State {
        good: s.good & fit,
        begun: true,
        weight: r.weight,
        first: r.first,
        found,
        n: s.n,
        handle: s.handle,
    }
}

// 12: what was read is no run list of n k-mers.
#[tactic(auto, unfolding(crate::specs::Pass::list_verdict))]
fn judge_read(s: State) -> Result<(), Refusal>
    ensures { result ≡ list_verdict s }
{
    if s.good & (s.begun | (s.n == 0)) {
        return Ok(());
    }
    Err(Refusal::RunList)
}

// 12, then 9; else the weight that was found.
#[tactic(auto, unfolding(crate::specs::Pass::finished, collection::specs::Verdict::settle, collection::specs::Verdict::and_then))]
fn finish(s: State) -> Result<u32, Refusal>
    ensures { result ≡ finished s }
{
    judge_read(s)?;
    collection::judge_handle(s.n, s.handle)?;
    Ok(s.found)
}

// WEIGHT: the weight of the last run that starts at or before the handle. The whole list is judged first.
pub fn weight_of_records(runs: &[Run], n: usize, handle: usize) -> Result<u32, Refusal>
    ensures { result ≡ weight_answer (map weight_in runs.now) (map first_in runs.now) n handle }
{
    let s = runs.iter().fold(start(n, handle), |s, r| step(s, *r));
    finish(s)
}
