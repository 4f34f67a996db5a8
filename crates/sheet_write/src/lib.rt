// WRITE: a collection as a sheet's bytes. The sheet's length follows from the lengths of the tables and the digits of the
// weights, so the table is judged before a byte is written.
#![tactic(auto)]

mod numbers;
mod writing;

ghost use Rattle.std.specs.Prelude.{◌≡◌};
ghost use Rattle.sheet.specs.Write.{write_verdict, write_outcome, write_of};
ghost use Rattle.collection.specs.Lent.{collection_in};

use collection::{Collection, Refusal};

// 2 to 6, then 1: the sheet for a table of `have` bytes.
#[tactic(auto, unfolding(sheet::specs::Write::write_verdict, collection::specs::Verdict::and_then))]
fn judge_write(given: Collection, have: usize) -> Result<(), Refusal>
    ensures { result ≡ write_verdict (collection_in given.entry) have }
{
    given.judge()?;
    let n = writing::sheet_length(given);
    collection::judge_room(have, n)
}

// WRITE: a collection's sheet into the lent table; answers how many bytes it wrote.
pub fn write(given: Collection, sheet: &mut [u8]) -> Result<usize, Refusal>
    ensures { write_outcome result sheet.new ≡ write_of (collection_in given.entry) sheet.old }
{
    judge_write(given, sheet.len())?;
    Ok(writing::put_sheet(given, sheet))
}
