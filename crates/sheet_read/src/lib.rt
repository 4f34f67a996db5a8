// READ: a sheet's bytes into the tables of a collection. One pass judges and counts, and only then one pass fills, so a
// refusal finds every table as it was. The place in the sheet goes from step to step as a number.
#![tactic(auto)]

mod filling;
mod judging;

ghost use Rattle.std.specs.Prelude.{◌≡◌};
ghost use Rattle.collection.specs.Tables.{tables};
ghost use Rattle.sheet.specs.Read.{read_outcome, read_of};

use collection::Refusal;
use sheet::Filled;

// What a judged sheet holds: k, where line 2 starts, and how many letters, strings and weights its lines have.
#[derive(Clone, Copy, Debug, PartialEq, Eq)]
pub(crate) struct Held {
    k: usize,
    next: usize,
    letters: usize,
    strings: usize,
    weights: usize,
}

// READ: a sheet's k, letters, ends and weights into the lent tables.
pub fn read(
    sheet: &[u8],
    letters: &mut [u8],
    ends: &mut [u32],
    weights: &mut [u32],
) -> Result<Filled, Refusal>
    ensures { read_outcome result (tables letters.new ends.new weights.new)
        ≡ read_of sheet.now (tables letters.old ends.old weights.old) }
{
    let held = judging::judge_read(sheet, letters.len(), ends.len(), weights.len())?;
    filling::fill_lines(held.k, sheet, held.next, letters, ends, weights);
    Ok(Filled {
        k: held.k,
        letters: held.letters,
        ends: held.strings,
        weights: held.weights,
    })
}
