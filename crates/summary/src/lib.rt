// What `tally` does: from the bytes of a sheet to the bytes of a report.
#![tactic(auto)]

pub mod inner; // of a collection, for callers that have judged it
mod telling;

ghost use Rattle.std.specs.Prelude.{◌≡◌, ◌≤◌, length};
ghost use Rattle.summary_text.specs.Written.{outcome};
ghost use Rattle.summary.specs.Report.{as_told, text_of, report_of};

use collection::{Refusal, Told};
use summary_text::Numbers;

// A summary as it is told: the numbers, or the number and the place of the refusal.
#[tactic(auto, unfolding(crate::specs::Report::as_told))]
fn as_told(summary: Result<Numbers, Refusal>) -> Result<Numbers, Told>
    ensures { result ≡ as_told summary }
{
    summary.map_err(Refusal::told)
}

// Writes what there is to say of a sheet; answers how many bytes it wrote. The tables that READ, CHECK and COVER need stand on the stack; a sheet of at most
// 8,192 bytes fits them. 247 bytes are room for every report.
pub fn report(sheet: &[u8], text: &mut [u8]) -> Result<usize, Refusal>
    ensures text_after { outcome result text.new ≡ report_of sheet.now text.old }
    ensures sheet_len_bound { length (text_of sheet.now) ≤ 247 }
{
    let mut letters = [0u8; 8192];
    let mut ends = [0u32; 4096];
    let mut weights = [0u32; 4096];
    let mut places = [0i32; 4096];
    let mut work = [0u32; 65536];
    let s = telling::tell(
        sheet,
        &mut letters,
        &mut ends,
        &mut weights,
        &mut places,
        &mut work,
    );
    summary_text::write_summary(as_told(s), text)
}
