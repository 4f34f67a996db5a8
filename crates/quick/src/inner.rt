// Asking over a judged index, for callers that ask many words.
ghost use Rattle.std.specs.Prelude.{true, ◌≡◌, ◌^◌, ◌≤◌, ◌<◌, length};
ghost use Rattle.lists.specs.Every.{every};
ghost use Rattle.lists.specs.Limits.{most_letters, most_k};
ghost use Rattle.alphabet.specs.Letter.{is_letter};
ghost use Rattle.words.specs.Word.{spell};
ghost use Rattle.index_stretches.specs.Lent.{index_in};
ghost use Rattle.quick_walks.specs.Judged.{Row};
ghost use Rattle.quick.specs.Judged.{Askable};
ghost use Rattle.quick.specs.Quick.{rows_verdict};
ghost use Rattle.quick.specs.Asking.{question_of, asked_of, turned_of};

use crate::{Question, QuickAnswer};
use collection::{Refusal, Side};
use index_stretches::Index;
use quick_walks::Met;

// The question for a judged word.
#[tactic(auto, using(crate::proofs::Asked::question_is))]
pub fn question(k: usize, p: usize, word: &[u8]) -> Question
    requires le_p { (1 ≤ p) × (p ≤ k) × (k ≤ most_k) }
    requires word_len { (length word.now ≡ k) × (every is_letter word.now ≡ true) }
    ensures { result ≡ question_of p (spell word.now) }
{
    let asked = words::inner::word_code(word);
    let turned = words::inner::turned_code(k, asked);
    let row = index_minimizers::inner::find(p, k - p, asked);
    let other = index_minimizers::inner::find(p, k - p, turned);
    Question {
        asked,
        turned,
        row: row as usize,
        other: other as usize,
    }
}

// 10: the tables fit n letters, and so do both rows of the question, judged in full.
#[tactic(auto, unfolding(crate::specs::Quick::rows_verdict), using(crate::proofs::Asked::judging))]
pub fn judge_index(k: usize, p: usize, q: Question, n: usize, index: Index) -> Result<(), Refusal>
    requires { (k ≤ most_k) × (p ≤ 8) × (n ≤ most_letters) × (q.row < 4 ^ p) × (q.other < 4 ^ p) }
    ensures { result ≡ rows_verdict (4 ^ p) k n (index_in index.entry) q.row q.other }
{
    let count = words::inner::word_count(p);
    if !quick_walks::inner::tables_fit(count, index) {
        return Err(Refusal::Index);
    }
    if !quick_walks::inner::row_fits(k, n, index, q.row) {
        return Err(Refusal::Index);
    }
    if !quick_walks::inner::row_fits(k, n, index, q.other) {
        return Err(Refusal::Index);
    }
    Ok(())
}

// The second walk: the turned word, in its own row.
#[tactic(auto, unfolding(crate::specs::Asking::turned_of, crate::specs::Quick::met_or))]
fn ask_turned(k: usize, q: Question, letters: &[u8], index: Index, compared: u64) -> QuickAnswer
    requires askable { Askable k letters.now q × (compared ≤ 2 ^ 41) }
    requires row { Row k (length letters.now) (index_in index) q.other }
    ensures { result ≡ turned_of k letters.now (index_in index.entry) q compared }
{
    let met = quick_walks::inner::walk_row(k, letters, q.turned, index, q.other, compared);
    match met {
        Met::Hit { handle, compared } => QuickAnswer::Found {
            handle,
            side: Side::Turned,
            compared,
        },
        Met::Miss { compared } => QuickAnswer::Absent { compared },
    }
}

// The two walks of a question: the word in its row, then the turned word in its own.
#[tactic(auto, unfolding(crate::specs::Asking::asked_of, crate::specs::Quick::met_or), using(crate::proofs::Asked::walked))]
pub fn ask(k: usize, q: Question, letters: &[u8], index: Index) -> QuickAnswer
    requires askable { Askable k letters.now q }
    requires row { Row k (length letters.now) (index_in index) q.row }
    requires row_2 { Row k (length letters.now) (index_in index) q.other }
    ensures { result ≡ asked_of k letters.now (index_in index.entry) q }
{
    let met = quick_walks::inner::walk_row(k, letters, q.asked, index, q.row, 0);
    match met {
        Met::Hit { handle, compared } => QuickAnswer::Found {
            handle,
            side: Side::Asked,
            compared,
        },
        Met::Miss { compared } => ask_turned(k, q, letters, index, compared),
    }
}
