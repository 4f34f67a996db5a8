// Judging one table after the other: 4, 5 and 6, each at the place of the first fault.
ghost use Rattle.std.specs.Prelude.{◌≡◌, ◌≤◌};
ghost use Rattle.lists.specs.Limits.{most_k};
ghost use Rattle.collection.specs.Judge.{ends_verdict, letters_verdict, weights_verdict};

use crate::Refusal;

// 4: a string shorter than k, or a last end that is not the number of letters.
#[tactic(auto, unfolding(crate::specs::Judge::ends_verdict, crate::specs::Verdict::and_then, crate::specs::Verdict::at_place))]
pub(crate) fn judge_ends(k: usize, letters: usize, ends: &[u32]) -> Result<(), Refusal>
    requires { k ≤ most_k }
    ensures { result ≡ ends_verdict k letters ends.now }
{
    let short = collection_faults::inner::first_short(k, ends);
    if short != 0 {
        return Err(Refusal::Ends { place: short });
    }
    let e = collection_faults::inner::last_end(ends);
    if e != letters {
        return Err(Refusal::Ends {
            place: ends.len() + 1,
        });
    }
    Ok(())
}

// 5: a byte that is no letter.
#[tactic(auto, unfolding(crate::specs::Judge::letters_verdict, crate::specs::Verdict::at_place))]
pub(crate) fn judge_letters(letters: &[u8]) -> Result<(), Refusal>
    ensures { result ≡ letters_verdict letters.now }
{
    match collection_faults::inner::first_other(letters) {
        0 => Ok(()),
        place => Err(Refusal::Letters { place }),
    }
}

// 6: not as many weights as k-mers, or one out of range.
#[tactic(auto, unfolding(crate::specs::Judge::weights_verdict, crate::specs::Verdict::at_place))]
pub(crate) fn judge_weights(n: usize, weights: &[u32]) -> Result<(), Refusal>
    ensures { result ≡ weights_verdict n weights.now }
{
    if weights.len() != n {
        return Err(Refusal::Weights { place: 0 });
    }
    match collection_faults::inner::first_weight(weights) {
        0 => Ok(()),
        place => Err(Refusal::Weights { place }),
    }
}
