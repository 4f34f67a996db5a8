// The tables of a judged sheet.
ghost use Rattle.std.specs.Prelude.{true, ◌≡◌, ◌+◌, ◌≤◌, length};
ghost use Rattle.lists.specs.Fill.{put};
ghost use Rattle.collection.specs.Tables.{tables, filled_by};
ghost use Rattle.sheet_lines.specs.Cursor.{tail_at, fine, weights_at, ends_at, strings_at};
ghost use Rattle.sheet_read.specs.Fits.{Fits};

// Stores the n weights that stand from a place to the line's end; answers where the line's feed stands.
fn fill_weights(s: &[u8], at: usize, n: usize, out: &mut [u32], o: usize) -> usize
    requires { (fine (tail_at s.now at n) ≡ true) × (o + length (weights_at s.now at) ≤ length out.old) }
    ensures { (out.new ≡ put o (weights_at s.now at) out.old) × (tail_at s.now at n ≡ ends_at result) }
{
    let mut i = at;
    for t in out[o..o + n].iter_mut() {
        if !text::byte_is(s, i, b'\t') {
            return i;
        }
        let Some(w) = sheet_lines::fields::weight_at(s, i + 1) else {
            return i;
        };
        *t = w.value;
        i = w.next;
    }
    i
}

// Fills the three tables from the strings' lines, the first of which starts at a place; the lines are judged. n letters, m ends
// and w weights are stored so far.
pub(crate) fn fill_lines(
    k: usize,
    s: &[u8],
    at: usize,
    letters: &mut [u8],
    ends: &mut [u32],
    weights: &mut [u32],
)
    requires { Fits k s.now at (length letters.old) (length ends.old) (length weights.old) }
    ensures { tables letters.new ends.new weights.new
        ≡ filled_by (strings_at s.now at) (tables letters.old ends.old weights.old) }
{
    let mut i = at;
    let mut n: usize = 0;
    let mut m: usize = 0;
    let mut w: usize = 0;
    while i < s.len() {
        let b = i + 2;
        let e = sheet_lines::inner::letters_end(s, b);
        text::inner::copy_bytes(s, b, e, letters, n);
        let x = e - b;
        n += x;
        ends[m] = n as u32;
        m += 1;
        let y = x + 1 - k;
        let f = fill_weights(s, e, y, weights, w);
        w += y;
        i = f + 1;
    }
}
