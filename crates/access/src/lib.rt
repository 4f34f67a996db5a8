// ACCESS: the letters of a handle, from the ends alone.
#![tactic(auto)]

mod locating;

ghost use Rattle.std.specs.Prelude.{◌≡◌, ◌+◌};
ghost use Rattle.collection.specs.Lent.{spelling_in};
ghost use Rattle.collection.specs.Verdict.{told};
ghost use Rattle.access.specs.Access.{access_verdict, access_part, access_start, access_at};

use collection::{Refusal, Spelling, Told};

// ACCESS: the k letters of a handle as a part of the lent letters, not a copy; refused, the empty part at their start.
pub fn access<'a>(given: Spelling<'a, '_>, handle: usize) -> &'a [u8]
    ensures { (result.now ≡ access_part (spelling_in given.entry) handle) × (result.ref_ptr.0 ≡ given.entry.letters.ref_ptr.0)
        × (result.ref_ptr.1 ≡ given.entry.letters.ref_ptr.1 + access_start (spelling_in given.entry) handle) }
{
    let Ok(()) = locating::judge_access(given, handle) else {
        return &given.letters[..0];
    };
    let p = locating::position(given.k, given.ends, handle);
    &given.letters[p..p + given.k]
}

// The number and the place with which ACCESS refuses; 0 and 0 where it does not.
#[tactic(auto, unfolding(collection::specs::Verdict::told))]
pub fn access_told(given: Spelling, handle: usize) -> Told
    ensures { result ≡ told (access_verdict (spelling_in given.entry) handle) }
{
    match locating::judge_access(given, handle) {
        Ok(()) => Told {
            number: 0,
            place: 0,
        },
        Err(refusal) => Told {
            number: refusal.number(),
            place: refusal.place(),
        },
    }
}

// ACCESS for a caller that has no use for a part: where it starts in the lent letters, or the refusal.
#[tactic(auto, unfolding(crate::specs::Access::access_at, collection::specs::Verdict::settle), using(crate::proofs::Accessed::access_inside))]
pub fn access_at(given: Spelling, handle: usize) -> Result<usize, Refusal>
    ensures { result ≡ access_at (spelling_in given.entry) handle }
{
    locating::judge_access(given, handle)?;
    Ok(locating::position(given.k, given.ends, handle))
}
