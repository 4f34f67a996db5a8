// The two tests that make a run list, and the lookup over a judged one, for callers that ask many times and judge once.
ghost use Rattle.std.specs.Prelude.{◌≡◌};
ghost use Rattle.weight.specs.RunList.{begins, follows, Listed, weight_at};

use crate::RunList;

// Whether a run (w, f) may be the first of a run list.
pub fn may_begin(n: usize, w: u32, f: u32) -> bool
    ensures { result ≡ begins n w f }
{
    ((1 <= w) & (w <= 16777215)) & ((f == 1) & (f as usize <= n))
}

// Whether a run (v, g) may follow a run (w, f). No branch, so that the loop over a list becomes vector code.
pub fn may_follow(n: usize, w: u32, f: u32, v: u32, g: u32) -> bool
    ensures { result ≡ follows n w f v g }
{
    (((1 <= v) & (v <= 16777215)) & (v != w)) & ((f < g) & (g as usize <= n))
}

// The weight of a handle. First handles rise, so the first run after it is found by halving.
pub fn weight_at(list: RunList, n: usize, handle: usize) -> u32
    requires { Listed n list.weights.now list.firsts.now handle }
    ensures { result ≡ weight_at handle list.entry.weights.now list.entry.firsts.now }
{
    let after = list
        .firsts
        .partition_point(|first| *first as usize <= handle);
    list.weights[after - 1]
}
