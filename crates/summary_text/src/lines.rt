// Lines of a label and a number.
ghost use Rattle.std.specs.Prelude.{[], ◌∷◌, ◌+◌, ◌≤◌, length};
ghost use Rattle.text.specs.Stored.{Stores};
ghost use Rattle.summary_text.specs.Text.{entry, line, lines};

// A label, a tab, and a number, from a place on; answers where they end.
pub(crate) fn put_entry(label: &[u8], n: usize, out: &mut [u8], at: usize) -> usize
    requires { at + length (entry label.now n) ≤ length out.old }
    ensures { Stores at (entry label.now n) out.old result out.new }
{
    text::inner::copy_bytes(label, 0, label.len(), out, at);
    let e = at + label.len();
    out[e] = b'\t';
    text::inner::put_number(n, out, e + 1)
}

// The same as a line, with its line feed.
pub(crate) fn put_line(label: &[u8], n: usize, out: &mut [u8], at: usize) -> usize
    requires { at + length (line label.now n) ≤ length out.old }
    ensures { Stores at (line label.now n) out.old result out.new }
{
    let e = put_entry(label, n, out, at);
    out[e] = b'\n';
    e + 1
}

// Three lines, from a place on; answers where they end.
pub(crate) fn put_lines(
    label1: &[u8],
    n1: usize,
    label2: &[u8],
    n2: usize,
    label3: &[u8],
    n3: usize,
    out: &mut [u8],
    at: usize,
) -> usize
    requires { at + length (lines ((label1.now, n1) ∷ (label2.now, n2) ∷ (label3.now, n3) ∷ [])) ≤ length out.old }
    ensures { Stores at (lines ((label1.now, n1) ∷ (label2.now, n2) ∷ (label3.now, n3) ∷ [])) out.old result out.new }
{
    let a = put_line(label1, n1, out, at);
    let b = put_line(label2, n2, out, a);
    put_line(label3, n3, out, b)
}
