// Canonical codes of all k-mers, by rolling the codes of a word and of its reverse complement along the strings: one step a letter, whatever k is.
ghost use Rattle.std.specs.Prelude.{true, ◌≡◌, ◌+◌, ◌/◌, ◌%◌, ◌≤◌, length};
ghost use Rattle.lists.specs.Count.{count_from};
ghost use Rattle.lists.specs.Every.{every};
ghost use Rattle.lists.specs.Limits.{most_k};
ghost use Rattle.alphabet.specs.Letter.{is_letter};
ghost use Rattle.collection.specs.Lent.{spelling_in};
ghost use Rattle.collection.specs.Kmers.{kmers};
ghost use Rattle.collection.specs.Ready.{Ready};
ghost use Rattle.repeats_canonical.specs.Codes.{codes, Halved};

use collection::Spelling;

// The upper half of a code.
fn upper(c: u64) -> u32
    ensures { result ≡ c / 4294967296 }
{
    (c / 4294967296) as u32
}

// The lower half of a code.
fn lower(c: u64) -> u32
    ensures { result ≡ c % 4294967296 }
{
    (c % 4294967296) as u32
}

// The canonical codes of the k-mers from position `at` on, one for each entry of hi and lo, which take their halves.
fn code_string(k: usize, letters: &[u8], at: usize, hi: &mut [u32], lo: &mut [u32])
    requires letters_value { every is_letter letters.now ≡ true }
    requires le_k { (1 ≤ k) × (k ≤ most_k) × (at + length hi.old + k ≤ length letters.now + 1) }
    requires same_length { length lo.old ≡ length hi.old }
    ensures { Halved (codes k letters.now (count_from at (length hi.old))) hi.new lo.new }
{
    let before = at + (k - 1);
    let mut c = words::inner::word_code(&letters[at..before]);
    let mut t = words::inner::turned_code(k - 1, c) * 4;
    for i in 0..hi.len() {
        let x = alphabet::letter_code(letters[before + i]);
        c = words::inner::roll(k, c, x);
        t = words::inner::roll_turned(k, t, x);
        let least = c.min(t);
        hi[i] = upper(least);
        lo[i] = lower(least);
    }
}

// The canonical codes of all k-mers: hi takes the upper halves, and lo the lower ones.
pub fn code_all(given: Spelling, hi: &mut [u32], lo: &mut [u32])
    requires ready { Ready (spelling_in given) }
    requires sizes { (length hi.old ≡ length (kmers given.k given.ends.now)) × (length lo.old ≡ length hi.old) }
    ensures { Halved (codes given.entry.k given.entry.letters.now (kmers given.entry.k given.entry.ends.now)) hi.new lo.new }
{
    let mut at: usize = 0;
    let mut passed: usize = 0;
    for end in given.ends {
        let e = *end as usize;
        let number = e + 1 - (at + given.k);
        let until = passed + number;
        code_string(
            given.k,
            given.letters,
            at,
            &mut hi[passed..until],
            &mut lo[passed..until],
        );
        passed = until;
        at = e;
    }
}
