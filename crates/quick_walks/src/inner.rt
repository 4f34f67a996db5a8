// Rows of an index: whether they fit (10), and the walk of one: where eight letters of the word stand nowhere in a stretch, the stretch is passed; else a code
// rolls along it, one step a k-mer, whatever k is.
ghost use Rattle.std.specs.Prelude.{true, map, ◌≡◌, ◌+◌, ◌≤◌, ◌<◌, ◌^◌, length, get_or, take, drop};
ghost use Rattle.lists.specs.Limits.{most_letters, most_k};
ghost use Rattle.index_stretches.specs.Stretches.{stretch, kmers_of, walk};
ghost use Rattle.index_stretches.specs.Index.{stretch_fits, row_fits, tables_fit, row_of};
ghost use Rattle.index_stretches.specs.Lent.{index_in};
ghost use Rattle.quick_walks.specs.Judged.{Alike, Row};
ghost use Rattle.quick_walks.specs.Keys.{Within, Inside, Meets, Finds, KeyOf};
ghost use Rattle.alphabet.specs.Letter.{capital, two_bits};
ghost use Rattle.words.specs.Word.{code};
ghost use Rattle.words.specs.Turned.{spelled};
ghost use Rattle.quick_walks.specs.Walk.{is_word, seek};

use crate::Met;
use index_stretches::Index;

// Whether the fourth table has d + 1 entries, and the other three equally many, 1,048,576 at most.
#[tactic(auto, unfolding(index_stretches::specs::Index::tables_fit))]
pub fn tables_fit(d: usize, index: Index) -> bool
    requires { d ≤ 65536 }
    ensures { result ≡ tables_fit d (index_in index.entry) }
{
    let count = index.firsts.len();
    (index.before.len() == d + 1)
        & ((index.positions.len() == count) & ((index.numbers.len() == count) & (count <= 1048576)))
}

// Whether a stretch fits n letters.
#[tactic(auto, unfolding(index_stretches::specs::Index::stretch_fits))]
fn stretch_fits(k: usize, n: usize, first: u32, at: u32, number: u32) -> bool
    requires { (k ≤ most_k) × (n ≤ most_letters) }
    ensures { result ≡ stretch_fits k n (stretch first at number) }
{
    (1 <= first)
        & ((1 <= number)
            & ((first as usize + number as usize <= 1048577)
                & (at as usize + number as usize + k <= n + 1)))
}

// Whether the row of minimizer v fits n letters. It looks at the whole row.
#[tactic(auto, using(crate::proofs::Rows::row_wrong, crate::proofs::Rows::row_each, crate::proofs::Rows::fit_next))]
pub fn row_fits(k: usize, n: usize, index: Index, v: usize) -> bool
    requires k_le_most_k { (k ≤ most_k) × (n ≤ most_letters) × (v + 1 < length index.before.now) }
    requires alike { Alike (index_in index) }
    ensures { result ≡ row_fits k n (index_in index.entry) v }
{
    let start = index.before[v] as usize;
    let end = index.before[v + 1] as usize;
    if end < start {
        return false;
    }
    if index.firsts.len() < end {
        return false;
    }
    let mut good = true;
    for i in start..end {
        good = good & stretch_fits(k, n, index.firsts[i], index.positions[i], index.numbers[i]);
    }
    good
}

// Whether the k bytes from position a on, of code c, are the word of code w. Bytes that are no letters have codes too, so that equal codes need a second look;
// few k-mers come so far.
fn is_word(k: usize, letters: &[u8], a: usize, c: u64, w: u64) -> bool
    requires w_bound { (w < 4 ^ k) × (a + k ≤ length letters.now) × (length letters.now ≤ most_letters) × (k ≤ most_k) }
    requires c_value { c ≡ code (map two_bits (take k (drop a letters.now))) }
    ensures { result ≡ is_word k letters.now (spelled k w) a }
{
    if c != w {
        return false;
    }
    alphabet::all_letters(&letters[a..a + k])
}

// ─── the gate: where eight letters of a word do not stand, the word does not ───

// The places of eight letters spread over n: the first, the last, and six between.
#[tactic(auto, using(crate::proofs::Keys::eight))]
pub fn spread(n: usize) -> [usize; 8]
    requires { (1 ≤ n) × (n ≤ most_letters) }
    ensures { Within n result }
{
    let last = n - 1;
    [
        0,
        last / 7,
        2 * last / 7,
        3 * last / 7,
        4 * last / 7,
        5 * last / 7,
        6 * last / 7,
        last,
    ]
}

// The letter at place i of the word of code w.
fn letter_at(k: usize, w: u64, i: usize) -> u8
    requires { (i < k) × (k ≤ most_k) }
    ensures { result ≡ get_or (map capital (spelled k w)) i 0 }
{
    alphabet::capital_of((w >> (2 * (k - 1 - i))) & 3)
}

// The key of the word of code w: its letters at the eight places.
pub fn key_of(k: usize, w: u64, places: &[usize; 8]) -> [u8; 8]
    requires { (k ≤ most_k) × Within k places.now }
    ensures { KeyOf (map capital (spelled k w)) places.now result }
{
    let mut key: [u8; 8] = [0; 8];
    for t in 0..8 {
        key[t] = letter_at(k, w, places[t]);
    }
    key
}

// Whether the key's letters stand from position a on. No branch, so that a loop over positions becomes vector code.
fn meets(letters: &[u8], a: usize, places: &[usize; 8], key: &[u8; 8]) -> bool
    requires { (length letters.now ≤ most_letters) × Inside places.now letters.now a }
    ensures { Meets places.now key.now letters.now a → result ≡ true }
{
    let mut good = true;
    for t in 0..8 {
        good = good & (letters[a + places[t]] == key[t]);
    }
    good
}

// Whether they stand from one of the 16 positions from a on: one vector of positions.
fn any_meets(letters: &[u8], a: usize, places: &[usize; 8], key: &[u8; 8]) -> bool
    requires { (length letters.now ≤ most_letters) × Inside places.now letters.now (a + 15) }
    ensures { Finds places.now key.now letters.now a 16 result }
{
    let mut any = false;
    for i in 0..16 {
        any = any | meets(letters, a + i, places, key);
    }
    any
}

// Whether what the key is of, n letters, may stand from one of so many positions from `at` on. False is sure. It looks at 16 positions at once, some of them
// behind the last, and says true where these reach beyond the letters.
pub fn may_stand(
    letters: &[u8],
    at: usize,
    count: usize,
    n: usize,
    places: &[usize; 8],
    key: &[u8; 8],
) -> bool
    requires { (at + count ≤ most_letters + 1) × (n ≤ most_letters) × (length letters.now ≤ most_letters) × Within n places.now }
    ensures { Finds places.now key.now letters.now at count result }
{
    for block in 0..(count + 15) / 16 {
        let a = at + 16 * block;
        if letters.len() < a + (15 + n) {
            return true;
        }
        if any_meets(letters, a, places, key) {
            return true;
        }
    }
    false
}

// Compares the k-mers of one stretch with the word of code w, `compared` k-mers having been compared before.
fn walk_stretch(
    k: usize,
    letters: &[u8],
    w: u64,
    first: usize,
    at: usize,
    number: usize,
    compared: u64,
) -> Met
    requires le_k { (1 ≤ k) × (k ≤ most_k) × (w < 4 ^ k) × (length letters.now ≤ most_letters) }
    requires k_in_bounds { (at + number + k ≤ length letters.now + 1) × (first ≤ most_letters) × (compared ≤ 2 ^ 42) }
    ensures { result ≡ seek (is_word k letters.now (spelled k w)) compared (kmers_of (stretch first at number)) }
{
    let before = at + (k - 1);
    let mut c = words::inner::word_code(&letters[at..before]);
    for i in 0..number {
        c = words::inner::roll(k, c, alphabet::letter_code(letters[before + i]));
        if is_word(k, letters, at + i, c, w) {
            return Met::Hit {
                handle: first + i,
                compared: compared + i as u64 + 1,
            };
        }
    }
    Met::Miss {
        compared: compared + number as u64,
    }
}

// The same, where the key of the word says that it may stand there; else it has compared them all.
fn stretch_by_key(
    k: usize,
    letters: &[u8],
    w: u64,
    places: &[usize; 8],
    key: &[u8; 8],
    first: usize,
    at: usize,
    number: usize,
    compared: u64,
) -> Met
    requires le_k { (1 ≤ k) × (k ≤ most_k) × (w < 4 ^ k) × (length letters.now ≤ most_letters) }
    requires k_in_bounds { (at + number + k ≤ length letters.now + 1) × (first ≤ most_letters) × (compared ≤ 2 ^ 42) }
    requires key_of { KeyOf (map capital (spelled k w)) places.now key.now }
    ensures { result ≡ seek (is_word k letters.now (spelled k w)) compared (kmers_of (stretch first at number)) }
{
    if may_stand(letters, at, number, k, places, key) {
        return walk_stretch(k, letters, w, first, at, number, compared);
    }
    Met::Miss {
        compared: compared + number as u64,
    }
}

// Compares the k-mers of the row of minimizer v with the word of code w, by its key, `compared` k-mers having been compared before.
fn row_by_key(
    k: usize,
    letters: &[u8],
    w: u64,
    places: &[usize; 8],
    key: &[u8; 8],
    index: Index,
    v: usize,
    compared: u64,
) -> Met
    requires le_k { (1 ≤ k) × (k ≤ most_k) × (w < 4 ^ k) × (length letters.now ≤ most_letters) × (compared ≤ 2 ^ 41) }
    requires row { Row k (length letters.now) (index_in index) v }
    requires key_of { KeyOf (map capital (spelled k w)) places.now key.now }
    ensures { result ≡ seek (is_word k letters.now (spelled k w)) compared (walk (row_of (index_in index.entry) v)) }
{
    let mut count = compared;
    for i in index.before[v] as usize..index.before[v + 1] as usize {
        let first = index.firsts[i] as usize;
        let at = index.positions[i] as usize;
        let number = index.numbers[i] as usize;
        let met = stretch_by_key(k, letters, w, places, key, first, at, number, count);
        let Met::Miss { compared } = met else {
            return met;
        };
        count = compared;
    }
    Met::Miss { compared: count }
}

// Compares the k-mers of the row of minimizer v with the word of code w, `compared` k-mers having been compared before.
pub fn walk_row(k: usize, letters: &[u8], w: u64, index: Index, v: usize, compared: u64) -> Met
    requires le_k { (1 ≤ k) × (k ≤ most_k) × (w < 4 ^ k) × (length letters.now ≤ most_letters) × (compared ≤ 2 ^ 41) }
    requires row { Row k (length letters.now) (index_in index) v }
    ensures { result ≡ seek (is_word k letters.now (spelled k w)) compared (walk (row_of (index_in index.entry) v)) }
{
    let places = spread(k);
    let key = key_of(k, w, &places);
    row_by_key(k, letters, w, &places, &key, index, v, compared)
}
