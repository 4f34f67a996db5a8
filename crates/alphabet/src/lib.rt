// The four letters: which byte is which, their codes, and their pairs.
#![tactic(auto)]

ghost use Rattle.std.specs.Prelude.{◌≡◌};
ghost use Rattle.lists.specs.Every.{every};
ghost use Rattle.alphabet.specs.Letter.{is_letter, capital, two_bits, paired};

// Whether a byte is a letter. No branch, so that a loop over a table becomes vector code.
pub fn is_letter(b: u8) -> bool
    ensures { result ≡ is_letter b }
{
    (b == b'A') | (b == b'C') | (b == b'G') | (b == b'T')
}

// Whether all bytes are letters. It looks at each of them, since leaving early costs more than it saves.
pub fn all_letters(bytes: &[u8]) -> bool
    ensures { result ≡ every is_letter bytes.now }
{
    let mut good = true;
    for b in bytes {
        good = good & is_letter(*b);
    }
    good
}

// The code of a letter, without a branch; of another byte some number below 4.
pub fn letter_code(b: u8) -> u64
    ensures { result ≡ two_bits b }
{
    (((b >> 1) & 3) ^ ((b >> 2) & 1)) as u64
}

// The capital of a code; of a number that is no code, T.
#[tactic(auto, unfolding(crate::specs::Letter::capital))]
pub fn capital_of(x: u64) -> u8
    ensures { result ≡ capital x }
{
    match x {
        0 => b'A',
        1 => b'C',
        2 => b'G',
        _ => b'T',
    }
}

// The pair of a letter: A and T, C and G exchanged.
pub fn turned_letter(b: u8) -> u8
    ensures { result ≡ capital (paired (two_bits b)) }
{
    capital_of(3 - letter_code(b))
}
