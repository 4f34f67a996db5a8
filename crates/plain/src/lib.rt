// PLAIN: the handle of a word, by a scan of the whole collection.
#![tactic(auto)]

mod scanning;

ghost use Rattle.std.specs.Prelude.{◌≡◌};
ghost use Rattle.plain.specs.Plain.{plain_of};
ghost use Rattle.collection.specs.Lent.{collection_in};

use collection::{Collection, Refusal, Side};

// Where a word stands: the handle, and whether it stands there as asked.
#[derive(Clone, Copy, Debug, PartialEq, Eq)]
pub struct Standing {
    pub handle: usize,
    pub side: Side,
}

// What a pass over k-mers has seen: the asked word at a handle; or not that, and the turned word first at a handle (0: not).
// No Result: neither case is a failure.
#[derive(Clone, Copy, Debug, PartialEq, Eq)]
pub enum Seen {
    At(usize),
    NotAsked(usize),
}

// PLAIN: the lowest handle of a word as asked, else of its reverse complement, by a scan of the whole collection; `None` where neither stands there.
#[tactic(auto, unfolding(crate::specs::Plain::plain_of, collection::specs::Verdict::settle, collection::specs::Verdict::and_then))]
pub fn plain(given: Collection, word: &[u8]) -> Result<Option<Standing>, Refusal>
    ensures { result ≡ plain_of (collection_in given.entry) word.now }
{
    given.judge()?;
    collection::judge_word(given.k, word)?;
    Ok(scanning::found(given, word))
}
