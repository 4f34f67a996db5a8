// Stretches, counted and stored, with a code and a minimizer that roll along each string: a few steps a letter, whatever k and p are.
ghost use Rattle.std.specs.Prelude.{true, ◌≡◌, ℕ, ◌+◌, ◌^◌, ◌≤◌, ◌<◌, length, set};
ghost use Rattle.lists.specs.Every.{every};
ghost use Rattle.lists.specs.Limits.{most_letters, most_k};
ghost use Rattle.alphabet.specs.Letter.{is_letter};
ghost use Rattle.collection.specs.Lent.{spelling_in};
ghost use Rattle.collection.specs.Ready.{Ready};
ghost use Rattle.index_minimizers.specs.Minimizer.{minimizer_at};
ghost use Rattle.index_stretches.specs.Stretches.{of_string, stretches};
ghost use Rattle.index_cutting.specs.Cut.{Room4, Cut};

use collection::Spelling;

// How many stretches the n k-mers from position a on have, which stand in one string.
#[tactic(auto, using(crate::proofs::Carried::roll_fits, crate::proofs::Carried::slide_fits))]
fn count_string(k: usize, p: usize, letters: &[u8], a: usize, n: usize) -> usize
    requires letters_value { every is_letter letters.now ≡ true }
    requires le_p { (1 ≤ p) × (p ≤ k) × (k ≤ most_k) × (1 ≤ n) × (a + n + k ≤ length letters.now + 1) × (length letters.now ≤ most_letters) }
    ensures { (h : ℕ) → result ≡ length (of_string (minimizer_at k p letters.now) h a n) }
{
    let mut c = words::inner::word_code(&letters[a..a + k]);
    let mut v = index_minimizers::inner::find(p, k - p, c);
    let mut count = 1;
    for i in 1..n {
        let x = alphabet::letter_code(letters[a + i + (k - 1)]);
        let d = words::inner::roll(k, c, x);
        let q = index_minimizers::inner::slide(p, k - p, v, c, d, x);
        c = d;
        if q != v {
            count += 1;
            v = q;
        }
    }
    count
}

// How many stretches the collection has.
pub fn count_all(given: Spelling, p: usize) -> usize
    requires ready { Ready (spelling_in given) }
    requires le_p { (1 ≤ p) × (p ≤ 8) × (p ≤ given.k) }
    ensures { result ≡ length (stretches (minimizer_at given.entry.k p given.entry.letters.now) given.entry.k given.entry.ends.now) }
{
    let Spelling { k, letters, ends } = given;
    let mut at: usize = 0;
    let mut count: usize = 0;
    for end in ends {
        let e = *end as usize;
        count += count_string(k, p, letters, at, e + 1 - (at + k));
        at = e;
    }
    count
}

// Stores one stretch and its minimizer at place o of the four tables.
fn store(
    firsts: &mut [u32],
    positions: &mut [u32],
    numbers: &mut [u32],
    keys: &mut [u32],
    o: usize,
    first: usize,
    at: usize,
    number: usize,
    key: u64,
)
    requires { (o < length firsts.old) × (o < length positions.old) × (o < length numbers.old) × (o < length keys.old) × (first < 2 ^ 32)
        × (at < 2 ^ 32) × (number < 2 ^ 32) × (key < 2 ^ 32) }
    ensures { (firsts.new ≡ set firsts.old o first) × (positions.new ≡ set positions.old o at)
        × (numbers.new ≡ set numbers.old o number) × (keys.new ≡ set keys.old o key) }
{
    firsts[o] = first as u32;
    positions[o] = at as u32;
    numbers[o] = number as u32;
    keys[o] = key as u32;
}

// Stores the stretches of the n k-mers from position a on, which stand in one string and the first of which has handle h, at the places from o on; the next
// free place is given back.
#[tactic(auto, using(crate::proofs::Carried::roll_fits, crate::proofs::Carried::slide_fits))]
fn cut_string(
    k: usize,
    p: usize,
    letters: &[u8],
    h: usize,
    a: usize,
    n: usize,
    o: usize,
    firsts: &mut [u32],
    positions: &mut [u32],
    numbers: &mut [u32],
    keys: &mut [u32],
) -> usize
    requires letters_value { every is_letter letters.now ≡ true }
    requires le_p { (1 ≤ p) × (p ≤ 8) × (p ≤ k) × (k ≤ most_k) × (1 ≤ n) × (a + n + k ≤ length letters.now + 1) × (length letters.now ≤ most_letters)
        × (h ≤ most_letters) × (o ≤ most_letters) }
    requires room4 { Room4 o (length (of_string (minimizer_at k p letters.now) h a n)) firsts.old positions.old numbers.old keys.old }
    ensures value { result ≡ o + length (of_string (minimizer_at k p letters.now) h a n) }
    ensures cut { Cut (minimizer_at k p letters.now) o (of_string (minimizer_at k p letters.now) h a n) firsts.old firsts.new
        positions.old positions.new numbers.old numbers.new keys.old keys.new }
{
    let mut c = words::inner::word_code(&letters[a..a + k]);
    let mut v = index_minimizers::inner::find(p, k - p, c);
    let mut s: usize = 0;
    let mut to = o;
    for i in 1..n {
        let x = alphabet::letter_code(letters[a + i + (k - 1)]);
        let d = words::inner::roll(k, c, x);
        let q = index_minimizers::inner::slide(p, k - p, v, c, d, x);
        c = d;
        if q != v {
            store(firsts, positions, numbers, keys, to, h + s, a + s, i - s, v);
            to += 1;
            s = i;
            v = q;
        }
    }
    store(firsts, positions, numbers, keys, to, h + s, a + s, n - s, v);
    to + 1
}

// Stores all stretches of the collection, in the order of their handles, each with its minimizer.
pub fn cut_all(
    given: Spelling,
    p: usize,
    firsts: &mut [u32],
    positions: &mut [u32],
    numbers: &mut [u32],
    keys: &mut [u32],
)
    requires ready { Ready (spelling_in given) }
    requires le_p { (1 ≤ p) × (p ≤ 8) × (p ≤ given.k) }
    requires room4 { Room4 0 (length (stretches (minimizer_at given.k p given.letters.now) given.k given.ends.now)) firsts.old positions.old
        numbers.old keys.old }
    ensures { Cut (minimizer_at given.entry.k p given.entry.letters.now) 0
        (stretches (minimizer_at given.entry.k p given.entry.letters.now) given.entry.k given.entry.ends.now)
        firsts.old firsts.new positions.old positions.new numbers.old numbers.new keys.old keys.new }
{
    let Spelling { k, letters, ends } = given;
    let mut at: usize = 0;
    let mut h: usize = 1;
    let mut o: usize = 0;
    for end in ends {
        let e = *end as usize;
        let n = e + 1 - (at + k);
        o = cut_string(k, p, letters, h, at, n, o, firsts, positions, numbers, keys);
        h += n;
        at = e;
    }
}
