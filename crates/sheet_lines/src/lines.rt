// The lines of a sheet: line 1, and a string's line.
ghost use Rattle.std.specs.Prelude.{◌≡◌, ◌≤◌, length, drop};
ghost use Rattle.sheet_lines.specs.Cursor.{tail_at, marked, line_at, head_in, head_end};

use crate::{Head, Line, fields, inner};

// A line's end, where no weight is wanted any more: where the next line starts.
fn tail_end(s: &[u8], i: usize) -> Option<usize>
    ensures { result ≡ tail_at s.now i 0 }
{
    if text::byte_is(s, i, b'\n') {
        return Some(i + 1);
    }
    None
}

// Exactly n weights, each behind a tab, from a place to the line's end: where the next line starts.
fn tail_at(s: &[u8], at: usize, n: usize) -> Option<usize>
    ensures { result ≡ tail_at s.now at n }
{
    let mut i = at;
    for _ in 0..n {
        if !text::byte_is(s, i, b'\t') {
            return None;
        }
        let w = fields::weight_at(s, i + 1)?;
        i = w.next;
    }
    tail_end(s, i)
}

// Whether `S` and a tab stand at a place.
fn is_marked(s: &[u8], at: usize) -> bool
    requires { at ≤ length s.now }
    ensures { result ≡ marked (drop at s.now) }
{
    s[at..].starts_with(b"S\t")
}

// A string's line at a place of the sheet.
pub(crate) fn line_at(k: usize, s: &[u8], at: usize) -> Option<Line>
    requires { at ≤ length s.now }
    ensures { result ≡ line_at k s.now at }
{
    if !is_marked(s, at) {
        return None;
    }
    let b = at + 2;
    let e = inner::letters_end(s, b);
    let n = e - b;
    if n < k {
        return None;
    }
    let w = n + 1 - k;
    let next = tail_at(s, e, w)?;
    Some(Line {
        next,
        letters: n,
        weights: w,
    })
}

// Line 1's end, behind k.
fn head_end(s: &[u8], k: usize, i: usize) -> Option<Head>
    ensures { result ≡ head_end s.now k i }
{
    if text::byte_is(s, i, b'\n') {
        return Some(Head { k, next: i + 1 });
    }
    None
}

// Line 1. A number of one or two digits other than 0 is a weight, so it is read as one; it ends at place 4 at the latest.
pub fn head_at(s: &[u8]) -> Option<Head>
    ensures { result ≡ head_in s.now }
{
    if !text::byte_is(s, 0, b'K') {
        return None;
    }
    if !text::byte_is(s, 1, b'\t') {
        return None;
    }
    if text::byte_is(s, 2, b'0') {
        return head_end(s, 0, 3);
    }
    let w = fields::weight_at(s, 2)?;
    if 4 < w.next {
        return None;
    }
    head_end(s, w.value as usize, w.next)
}
