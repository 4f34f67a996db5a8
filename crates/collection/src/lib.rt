// A collection: k, letters end to end, string ends and weights, as lent tables. This crate says what they mean and judges
// them: every public call above refuses by these verdicts.
#![tactic(auto)]

pub mod inner;
mod judging;
mod refusal;
mod tables;

ghost use Rattle.std.specs.Prelude.{◌≡◌};
ghost use Rattle.collection.specs.Tables.{rooms, rooms_verdict};
ghost use Rattle.collection.specs.Verdict.{room_verdict};
ghost use Rattle.collection.specs.Judge.{k_verdict, size_verdict, handle_verdict, word_verdict};

pub use refusal::{Refusal, Told};
pub use tables::{Collection, Spelling};

// As it was asked (+), or as its reverse complement (-).
#[derive(Clone, Copy, Debug, PartialEq, Eq)]
pub enum Side {
    Asked,
    Turned,
}

// 2: k outside its range.
#[tactic(auto, unfolding(crate::specs::Judge::k_verdict))]
pub fn judge_k(k: usize) -> Result<(), Refusal>
    ensures { result ≡ k_verdict k }
{
    if (3 <= k) & (k <= 31) {
        return Ok(());
    }
    Err(Refusal::Sizes)
}

// 3: too many letters or strings.
#[tactic(auto, unfolding(crate::specs::Judge::size_verdict))]
pub fn judge_size(letters: usize, strings: usize) -> Result<(), Refusal>
    ensures { result ≡ size_verdict letters strings }
{
    if (letters <= 1048576) & (strings <= 65536) {
        return Ok(());
    }
    Err(Refusal::Limits)
}

// 1: a lent table of `have` entries where `need` are needed.
#[tactic(auto, unfolding(crate::specs::Verdict::room_verdict))]
pub fn judge_room(have: usize, need: usize) -> Result<(), Refusal>
    ensures { result ≡ room_verdict have need }
{
    if have < need {
        return Err(Refusal::Room);
    }
    Ok(())
}

// 1: tables of these lengths for so many letters, ends and weights.
#[tactic(auto, unfolding(crate::specs::Tables::rooms_verdict, crate::specs::Verdict::and_then))]
pub fn judge_rooms(
    letters: usize,
    ends: usize,
    weights: usize,
    need_letters: usize,
    need_ends: usize,
    need_weights: usize,
) -> Result<(), Refusal>
    ensures { result ≡ rooms_verdict (rooms letters ends weights) need_letters need_ends need_weights }
{
    judge_room(letters, need_letters)?;
    judge_room(ends, need_ends)?;
    judge_room(weights, need_weights)
}

// 9: a handle that is not 1 to n.
#[tactic(auto, unfolding(crate::specs::Judge::handle_verdict))]
pub fn judge_handle(n: usize, handle: usize) -> Result<(), Refusal>
    ensures { result ≡ handle_verdict n handle }
{
    if (1 <= handle) & (handle <= n) {
        return Ok(());
    }
    Err(Refusal::Question)
}

// 9: an asked word that is not k letters.
#[tactic(auto, unfolding(crate::specs::Judge::word_verdict))]
pub fn judge_word(k: usize, word: &[u8]) -> Result<(), Refusal>
    ensures { result ≡ word_verdict k word.now }
{
    if (word.len() == k) & alphabet::all_letters(word) {
        return Ok(());
    }
    Err(Refusal::Question)
}
