// The first fault of a table. A whole table is tested without leaving early, which the compiler turns into vector code; only where
// something is wrong is its place looked for.
ghost use Rattle.std.specs.Prelude.{not, ◌≡◌, ◌≤◌, eqb};
ghost use Rattle.lists.specs.Every.{every};
ghost use Rattle.lists.specs.First.{first_that};
ghost use Rattle.lists.specs.Limits.{most_k};
ghost use Rattle.alphabet.specs.Letter.{is_letter};
ghost use Rattle.collection_faults.specs.Faults.{first_short, last_end, is_weight};

// Whether no string is shorter than k.
fn none_short(k: usize, ends: &[u32]) -> bool
    requires { k ≤ most_k }
    ensures { result ≡ eqb (first_short k 0 0 ends.now) 0 }
{
    let mut good = true;
    let mut before: usize = 0;
    for end in ends {
        let e = *end as usize;
        good = good & (before + k <= e);
        before = e;
    }
    good
}

// The number of the first string shorter than k, or 0.
pub fn first_short(k: usize, ends: &[u32]) -> usize
    requires { k ≤ most_k }
    ensures { result ≡ first_short k 0 0 ends.now }
{
    if none_short(k, ends) {
        return 0;
    }
    let mut before: usize = 0;
    for (i, end) in ends.iter().enumerate() {
        let e = *end as usize;
        if e < before + k {
            return i + 1;
        }
        before = e;
    }
    0
}

// The last end, or 0 where there is no string.
pub fn last_end(ends: &[u32]) -> usize
    ensures { result ≡ last_end 0 ends.now }
{
    match ends.last() {
        Some(end) => *end as usize,
        None => 0,
    }
}

// The place of the first byte that is no letter, or 0.
pub fn first_other(letters: &[u8]) -> usize
    ensures { result ≡ first_that (λ b. not (is_letter b)) letters.now }
{
    if alphabet::all_letters(letters) {
        return 0;
    }
    match letters.iter().position(|b| !alphabet::is_letter(*b)) {
        Some(i) => i + 1,
        None => 0,
    }
}

// Whether all weights are in range.
fn all_weights(weights: &[u32]) -> bool
    ensures { result ≡ every is_weight weights.now }
{
    let mut good = true;
    for w in weights {
        good = good & crate::is_weight(*w);
    }
    good
}

// The place of the first weight out of range, or 0.
pub fn first_weight(weights: &[u32]) -> usize
    ensures { result ≡ first_that (λ w. not (is_weight w)) weights.now }
{
    if all_weights(weights) {
        return 0;
    }
    match weights.iter().position(|w| !crate::is_weight(*w)) {
        Some(i) => i + 1,
        None => 0,
    }
}
