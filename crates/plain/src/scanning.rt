// The pass over all k-mers that PLAIN makes, with rolling codes: one step a letter, whatever k is.
ghost use Rattle.std.specs.Prelude.{true, ◌&&◌, ◌≡◌, ◌+◌, ◌≤◌, ◌<◌, eqb, length};
ghost use Rattle.lists.specs.Choose.{choose};
ghost use Rattle.lists.specs.Count.{count_from};
ghost use Rattle.lists.specs.Every.{every};
ghost use Rattle.lists.specs.Limits.{most_letters, most_k};
ghost use Rattle.alphabet.specs.Letter.{is_letter};
ghost use Rattle.words.specs.Word.{code, word_at, spell};
ghost use Rattle.collection.specs.Collection.{spelling_of};
ghost use Rattle.collection.specs.Lent.{collection_in};
ghost use Rattle.collection.specs.Kmers.{kmers};
ghost use Rattle.collection.specs.Ready.{Ready};
ghost use Rattle.plain.specs.Scan.{scan_from};
ghost use Rattle.plain.specs.Plain.{plain_found};

use crate::{Seen, Standing};
use collection::{Collection, Side};

// The handle at which the turned word was first seen, after one k-mer more.
fn first_turned(before: usize, here: bool, handle: usize) -> usize
    ensures { result ≡ choose (eqb before 0 && here) handle before }
{
    if (before == 0) & here { handle } else { before }
}

// The pass over the `number` k-mers from position `at` on, `passed` k-mers having passed before.
fn scan_string(
    k: usize,
    letters: &[u8],
    at: usize,
    number: usize,
    asked: u64,
    turned: u64,
    passed: usize,
    seen: usize,
) -> Seen
    requires letters_value { every is_letter letters.now ≡ true }
    requires le_k { (1 ≤ k) × (k ≤ most_k) × (at + number + k ≤ length letters.now + 1) × (passed + number ≤ most_letters) }
    ensures { result ≡ scan_from (λ a. eqb (code (word_at k letters.now a)) asked) (λ a. eqb (code (word_at k letters.now a)) turned) passed seen
        (count_from at number) }
{
    let before = at + (k - 1);
    let mut c = words::inner::word_code(&letters[at..before]);
    let mut first = seen;
    for (i, b) in letters[before..before + number].iter().enumerate() {
        c = words::inner::roll(k, c, alphabet::letter_code(*b));
        if c == asked {
            return Seen::At(passed + i + 1);
        }
        first = first_turned(first, c == turned, passed + i + 1);
    }
    Seen::NotAsked(first)
}

// The pass over the k-mers of all strings.
fn scan(given: Collection, asked: u64, turned: u64) -> Seen
    requires { Ready (spelling_of (collection_in given)) }
    ensures { result ≡ scan_from (λ a. eqb (code (word_at given.entry.k given.entry.letters.now a)) asked)
        (λ a. eqb (code (word_at given.entry.k given.entry.letters.now a)) turned) 0 0
        (kmers given.entry.k given.entry.ends.now) }
{
    let mut at: usize = 0;
    let mut passed: usize = 0;
    let mut first: usize = 0;
    for end in given.ends {
        let e = *end as usize;
        let number = e + 1 - (at + given.k);
        let s = scan_string(
            given.k,
            given.letters,
            at,
            number,
            asked,
            turned,
            passed,
            first,
        );
        let Seen::NotAsked(seen) = s else {
            return s;
        };
        first = seen;
        passed += number;
        at = e;
    }
    Seen::NotAsked(first)
}

// What PLAIN answers of judged tables and a judged word.
pub(crate) fn found(given: Collection, word: &[u8]) -> Option<Standing>
    requires ready { Ready (spelling_of (collection_in given)) }
    requires word_len { (length word.now ≡ given.k) × (every is_letter word.now ≡ true) }
    ensures { result ≡ plain_found (spelling_of (collection_in given.entry)) (spell word.now) }
{
    let asked = words::inner::word_code(word);
    let turned = words::inner::turned_code(given.k, asked);
    match scan(given, asked, turned) {
        Seen::At(handle) => Some(Standing {
            handle,
            side: Side::Asked,
        }),
        Seen::NotAsked(0) => None,
        Seen::NotAsked(handle) => Some(Standing {
            handle,
            side: Side::Turned,
        }),
    }
}
