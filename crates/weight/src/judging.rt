// Judging a run list: one pass that looks at all of it.
ghost use Rattle.std.specs.Prelude.{◌≡◌};
ghost use Rattle.weight.specs.RunList.{is_run_list};

use crate::RunList;

// Whether the tables are a run list of n k-mers.
pub(crate) fn is_run_list(list: RunList, n: usize) -> bool
    ensures { result ≡ is_run_list n list.entry.weights.now list.entry.firsts.now }
{
    if list.weights.len() != list.firsts.len() {
        return false;
    }
    if list.weights.len() == 0 {
        return n == 0;
    }
    let mut w = list.weights[0];
    let mut f = list.firsts[0];
    let mut good = crate::inner::may_begin(n, w, f);
    for (v, g) in list.weights[1..].iter().zip(list.firsts[1..].iter()) {
        good = good & crate::inner::may_follow(n, w, f, *v, *g);
        w = *v;
        f = *g;
    }
    good
}
