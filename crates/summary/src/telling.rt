// READ of a sheet, and what there is to say of its collection.
ghost use Rattle.std.specs.Prelude.{◌≡◌, length};
ghost use Rattle.summary.specs.Summary.{summary_of};
ghost use Rattle.summary.specs.Inner.{Ample};

use crate::inner;
use collection::{Collection, Refusal};
use summary_text::Numbers;

// A sheet: its length, READ, then the collection.
pub(crate) fn tell(
    sheet: &[u8],
    letters: &mut [u8],
    ends: &mut [u32],
    weights: &mut [u32],
    places: &mut [i32],
    work: &mut [u32],
) -> Result<Numbers, Refusal>
    requires { Ample (length letters.old) (length ends.old) (length weights.old) (length places.old) (length work.old) }
    ensures { result ≡ summary_of sheet.now }
{
    if 8192 < sheet.len() {
        return Err(Refusal::Limits);
    }
    let filled = sheet_read::read(sheet, letters, ends, weights)?;
    let given = Collection {
        k: filled.k,
        letters: &letters[..filled.letters],
        ends: &ends[..filled.ends],
        weights: &weights[..filled.weights],
    };
    inner::tell_collection(given, places, work)
}
