// Weights in decimal.
ghost use Rattle.std.specs.Prelude.{◌≡◌, ◌+◌, ◌≤◌, length, take, drop};
ghost use Rattle.sheet.specs.Text.{weights_text};
ghost use Rattle.text.specs.Stored.{Stores};

// Stores n weights from entry w on, each behind a tab; answers where they end.
pub(crate) fn put_weights(weights: &[u32], w: usize, n: usize, out: &mut [u8], at: usize) -> usize
    requires { (w + n ≤ length weights.now) × (at + length (weights_text (take n (drop w weights.now))) ≤ length out.old) }
    ensures { Stores at (weights_text (take n (drop w weights.now))) out.old result out.new }
{
    let mut p = at;
    for x in &weights[w..w + n] {
        out[p] = b'\t';
        p = text::inner::put_number(*x as usize, out, p + 1);
    }
    p
}
