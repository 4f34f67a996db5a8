// The sheet of a judged collection: how long it is, and its bytes.
ghost use Rattle.std.specs.Prelude.{◌≡◌, ◌+◌, ◌*◌, ◌≤◌, length};
ghost use Rattle.lists.specs.Fill.{put, fill};
ghost use Rattle.lists.specs.Limits.{most_letters};
ghost use Rattle.collection.specs.Lent.{collection_in};
ghost use Rattle.collection.specs.Judge.{Passes};
ghost use Rattle.collection.specs.Strings.{strings};
ghost use Rattle.sheet.specs.Text.{weights_text, lines_text, write_text};
ghost use Rattle.text.specs.Stored.{Stores};
ghost use Rattle.sheet_write.specs.Written.{head_line, cut_string, string_line};

use crate::numbers;
use collection::Collection;

// How many bytes all weights take, each with its tab.
fn weights_length(weights: &[u32]) -> usize
    requires { length weights.now ≤ most_letters }
    ensures { (result ≡ length (weights_text weights.now)) × (result ≤ 21 * length weights.now) }
{
    let mut n: usize = 0;
    for w in weights {
        n += 1 + text::inner::digit_count(*w as usize);
    }
    n
}

// How long the sheet is: line 1, then three bytes a string, its letters, and the weights.
pub(crate) fn sheet_length(given: Collection) -> usize
    requires { Passes (collection_in given) }
    ensures { result ≡ length (write_text (collection_in given.entry)) }
{
    let head = 3 + text::inner::digit_count(given.k);
    head + 3 * given.ends.len() + given.letters.len() + weights_length(given.weights)
}

// Line 1; answers where it ends.
fn put_head(k: usize, out: &mut [u8]) -> usize
    requires { length (head_line k) ≤ length out.old }
    ensures { (result ≡ length (head_line k)) × (out.new ≡ put 0 (head_line k) out.old) }
{
    out[0] = b'K';
    out[1] = b'\t';
    let p = text::inner::put_number(k, out, 2);
    out[p] = b'\n';
    p + 1
}

// The line of a string from a place on: its letters from b to e, and its n weights from entry w on. Answers where it ends.
fn put_string(
    letters: &[u8],
    b: usize,
    e: usize,
    weights: &[u32],
    w: usize,
    n: usize,
    out: &mut [u8],
    at: usize,
) -> usize
    requires b_le_e { (b ≤ e) × (e ≤ length letters.now) × (w + n ≤ length weights.now) }
    requires n_in_bounds { at + length (string_line (cut_string letters.now b e weights.now w n)) ≤ length out.old }
    ensures { Stores at (string_line (cut_string letters.now b e weights.now w n)) out.old result out.new }
{
    out[at] = b'S';
    out[at + 1] = b'\t';
    text::inner::copy_bytes(letters, b, e, out, at + 2);
    let p = numbers::put_weights(weights, w, n, out, at + 2 + (e - b));
    out[p] = b'\n';
    p + 1
}

// The lines of all strings, from a place on; answers where they end.
fn put_lines(given: Collection, out: &mut [u8], at: usize) -> usize
    requires passes { Passes (collection_in given) }
    requires weights_in_bounds { at + length (lines_text (strings (collection_in given))) ≤ length out.old }
    ensures { Stores at (lines_text (strings (collection_in given.entry))) out.old result out.new }
{
    let mut before: usize = 0;
    let mut w: usize = 0;
    let mut p = at;
    for end in given.ends {
        let e = *end as usize;
        let n = e + 1 - (before + given.k);
        p = put_string(given.letters, before, e, given.weights, w, n, out, p);
        before = e;
        w += n;
    }
    p
}

// The whole sheet; answers its length.
pub(crate) fn put_sheet(given: Collection, out: &mut [u8]) -> usize
    requires passes { Passes (collection_in given) }
    requires weights_in_bounds { length (write_text (collection_in given)) ≤ length out.old }
    ensures counted { result ≡ length (write_text (collection_in given.entry)) }
    ensures filled { out.new ≡ fill (write_text (collection_in given.entry)) out.old }
{
    let p = put_head(given.k, out);
    put_lines(given, out, p)
}
