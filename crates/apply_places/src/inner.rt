// Signed places: each of 1 to m once, sign aside. Signs are read here alone. For callers that have judged the strings and the room.
ghost use Rattle.std.specs.Prelude.{◌≡◌, ◌≤◌, nat_abs, length, take, replicate};
ghost use Rattle.lists.specs.Limits.{most_strings};
ghost use Rattle.cover_trails.specs.Places.{is_turned};
ghost use Rattle.apply_places.specs.Marks.{Scanned};
ghost use Rattle.apply_places.specs.Judged.{PlacesJudged};

use collection::Refusal;

// A place without its sign.
pub fn size_of(p: i32) -> u32
    ensures { result ≡ nat_abs p }
{
    p.unsigned_abs()
}

// Whether a string with this place is turned.
pub fn is_turned(p: i32) -> bool
    ensures { result ≡ is_turned p }
{
    p < 0
}

// The first string with a bad place, from 1, or 0. Work names the string of each place that was met.
fn mark_places(signed: &[i32], work: &mut [u32]) -> usize
    requires { (length signed.now ≤ most_strings) × (length signed.now ≤ length work.old)
        × (take (length signed.now) work.old ≡ replicate (length signed.now) 0) }
    ensures { Scanned (length signed.now) signed.now work.old work.new result }
{
    let m = signed.len();
    for (i, p) in signed.iter().enumerate() {
        let a = size_of(*p) as usize;
        if a == 0 {
            return i + 1;
        }
        if m < a {
            return i + 1;
        }
        let used = work[a - 1] != 0;
        if used {
            return i + 1;
        }
        work[a - 1] = i as u32 + 1;
    }
    0
}

// 8: not m places, or the first string whose place is zero, beyond m or used by an earlier string.
pub fn judge_places(signed: &[i32], work: &mut [u32], m: usize) -> Result<(), Refusal>
    requires { (m ≤ most_strings) × (m ≤ length work.old) }
    ensures { PlacesJudged m signed.now work.old work.new result }
{
    if signed.len() != m {
        return Err(Refusal::Places { place: 0 });
    }
    collection::inner::zero_first(work, m);
    let r = mark_places(signed, work);
    if r != 0 {
        return Err(Refusal::Places { place: r });
    }
    Ok(())
}
