// The minimizer of a k-mer from its code: looked for, or carried on from the k-mer before. n + p letters of the code count, so that
// it has n + 1 pieces of p letters.
ghost use Rattle.std.specs.Prelude.{◌≡◌, ◌+◌, ◌/◌, ◌%◌, ◌^◌, ◌≤◌, ◌<◌};
ghost use Rattle.lists.specs.Limits.{most_k};
ghost use Rattle.words.specs.Turned.{rolled};
ghost use Rattle.index_minimizers.specs.Least.{least};

// The p letters of the code c that stand before its last j.
fn piece(p: usize, c: u64, j: usize) -> u64
    requires { (p ≤ most_k) × (j ≤ most_k) }
    ensures { result ≡ c / 4 ^ j % 4 ^ p }
{
    (c >> (2 * j)) & ((1 << (2 * p)) - 1)
}

// The minimizer of the last n + p letters of the code c.
pub fn find(p: usize, n: usize, c: u64) -> u64
    requires { n + p ≤ most_k }
    ensures { result ≡ least p n c }
{
    let mut best = piece(p, c, 0);
    for j in 0..n {
        best = best.min(piece(p, c, j + 1));
    }
    best
}

// The minimizer of the next k-mer d, v being that of the k-mer c. It is looked for only where the smallest piece has left.
pub fn slide(p: usize, n: usize, v: u64, c: u64, d: u64, x: u64) -> u64
    requires { (n + p ≤ most_k) × (v ≡ least p n c) × (x < 4) × (d ≡ rolled (n + p) c x) }
    ensures { result ≡ least p n d }
{
    let new = piece(p, d, 0);
    if new <= v {
        return new;
    }
    if piece(p, c, n) == v {
        return find(p, n, d);
    }
    v
}
