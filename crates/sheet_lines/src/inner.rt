// For callers that know that their places lie in the tables.
ghost use Rattle.std.specs.Prelude.{◌≡◌, ◌+◌, ◌≤◌, length, drop};
ghost use Rattle.sheet_lines.specs.Cursor.{span, lines_at, count_of};

use crate::{Totals, lines};

// Where the letters that start at a place end.
pub fn letters_end(s: &[u8], at: usize) -> usize
    requires { at ≤ length s.now }
    ensures { (result ≡ at + span (drop at s.now)) × (result ≤ length s.now) }
{
    match s[at..].iter().position(|b| !alphabet::is_letter(*b)) {
        Some(n) => at + n,
        None => s.len(),
    }
}

// Judges and counts the strings' lines, the first of which starts at a place: n letters, m strings, w weights so far. Answers the
// number of the first wrong line, where there is one; the first string's line is line 2.
pub fn count_lines(k: usize, s: &[u8], at: usize) -> Result<Totals, usize>
    requires { (2 ≤ at) × (at ≤ length s.now) }
    ensures { result ≡ count_of k 0 0 0 (lines_at s.now at) }
{
    let mut n: usize = 0;
    let mut m: usize = 0;
    let mut w: usize = 0;
    let mut i = at;
    while i < s.len() {
        let line = lines::line_at(k, s, i).ok_or(m + 2)?;
        n += line.letters;
        m += 1;
        w += line.weights;
        i = line.next;
    }
    Ok(Totals {
        letters: n,
        strings: m,
        weights: w,
    })
}
