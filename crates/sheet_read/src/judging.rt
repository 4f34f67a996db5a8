// The refusals of READ, in their order: line 1 (11), k (2), the first wrong later line (11), 3, 1.
ghost use Rattle.std.specs.Prelude.{◌≡◌};
ghost use Rattle.collection.specs.Tables.{rooms};
ghost use Rattle.sheet_read.specs.Judged.{judged_of, judged_in, counts_verdict};

use crate::Held;
use collection::Refusal;

// A sheet's lines: what they hold, or the first refusal of 11, 2, 11.
fn judge_sheet(s: &[u8]) -> Result<Held, Refusal>
    ensures { result ≡ judged_of s.now }
{
    let Some(h) = sheet_lines::lines::head_at(s) else {
        return Err(Refusal::Line { place: 1 });
    };
    collection::judge_k(h.k)?;
    match sheet_lines::inner::count_lines(h.k, s, h.next) {
        Ok(c) => Ok(Held {
            k: h.k,
            next: h.next,
            letters: c.letters,
            strings: c.strings,
            weights: c.weights,
        }),
        Err(line) => Err(Refusal::Line { place: line }),
    }
}

// 3, then 1: so many letters, strings and weights for tables of the lengths a, b and c.
#[tactic(auto, unfolding(collection::specs::Verdict::and_then))]
fn judge_tables(
    letters: usize,
    strings: usize,
    weights: usize,
    a: usize,
    b: usize,
    c: usize,
) -> Result<(), Refusal>
    ensures { result ≡ counts_verdict letters strings weights (rooms a b c) }
{
    collection::judge_size(letters, strings)?;
    collection::judge_rooms(a, b, c, letters, strings, weights)
}

// A sheet and tables of the lengths a, b and c for its letters, ends and weights: what it holds, or the first refusal of all.
pub(crate) fn judge_read(s: &[u8], a: usize, b: usize, c: usize) -> Result<Held, Refusal>
    ensures { result ≡ judged_in s.now (rooms a b c) }
{
    let held = judge_sheet(s)?;
    judge_tables(held.letters, held.strings, held.weights, a, b, c)?;
    Ok(held)
}
