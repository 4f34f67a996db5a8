// QUICK: the handle of an asked word, by the index. The word's row is walked for the word, then the row of its reverse complement for the turned word.
#![tactic(auto)]

pub mod inner;

ghost use Rattle.std.specs.Prelude.{◌≡◌};
ghost use Rattle.index_stretches.specs.Lent.{index_in};
ghost use Rattle.quick.specs.Quick.{ask_verdict, quick_of};
ghost use Rattle.quick.specs.Weighed.{weighed_of};

use collection::{Refusal, Side};
use index_stretches::Index;
use weight::RunList;

// What QUICK answers: where the word stands, or that it is absent, with the number of k-mers compared, which can pass 32 bits on a damaged index.
// No Option: an absent word has that number too.
#[derive(Clone, Copy, Debug, PartialEq, Eq)]
pub enum QuickAnswer {
    Found {
        handle: usize,
        side: Side,
        compared: u64,
    },
    Absent {
        compared: u64,
    },
}

// A word to be asked for, by its code and its reverse complement's, and the minimizers under which they are looked for: `row` for the word, `other` for the
// turned one.
#[derive(Clone, Copy, Debug, PartialEq, Eq)]
pub struct Question {
    pub asked: u64,
    pub turned: u64,
    pub row: usize,
    pub other: usize,
}

// 2, 3 and 9; of 3 the letters alone.
#[tactic(auto, unfolding(crate::specs::Quick::ask_verdict, collection::specs::Verdict::and_then))]
fn judge_asked(k: usize, p: usize, word: &[u8], letters: usize) -> Result<(), Refusal>
    ensures { result ≡ ask_verdict k p word.now letters }
{
    index_minimizers::judge_sizes(k, p)?;
    collection::judge_size(letters, 0)?;
    collection::judge_word(k, word)
}

// QUICK: 2, 3, 9, 10; then the handle and the side of the word, or that it is absent, with the number of k-mers compared.
#[tactic(auto, unfolding(crate::specs::Quick::quick_of, crate::specs::Quick::quick_verdict), using(crate::proofs::Asked::asking))]
pub fn quick(
    k: usize,
    p: usize,
    word: &[u8],
    letters: &[u8],
    index: Index,
) -> Result<QuickAnswer, Refusal>
    ensures { result ≡ quick_of k p word.now letters.now (index_in index.entry) }
{
    judge_asked(k, p, word, letters.len())?;
    let q = inner::question(k, p, word);
    inner::judge_index(k, p, q, letters.len(), index)?;
    Ok(inner::ask(k, q, letters, index))
}

// The weight of an asked word: QUICK, and then WEIGHT of the handle found, by the run list of n k-mers; `None` where the word is absent.
#[tactic(auto, unfolding(crate::specs::Weighed::weighed_of, crate::specs::Weighed::weighs))]
pub fn weigh(
    k: usize,
    p: usize,
    word: &[u8],
    letters: &[u8],
    index: Index,
    list: RunList,
    n: usize,
) -> Result<Option<u32>, Refusal>
    ensures { result ≡ weighed_of (quick_of k p word.now letters.now (index_in index.entry))
        list.entry.weights.now list.entry.firsts.now n }
{
    let answer = quick(k, p, word, letters, index)?;
    let QuickAnswer::Found { handle, .. } = answer else {
        return Ok(None);
    };
    let weight = weight::weight(list, n, handle)?;
    Ok(Some(weight))
}
