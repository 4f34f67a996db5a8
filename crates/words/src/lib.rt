// Words by their codes: the code of a word, of its reverse complement, and of the next word along a string.
#![tactic(auto)]

pub mod inner;

ghost use Rattle.std.specs.Prelude.{◌≡◌};
ghost use Rattle.words.specs.Turned.{turned_code};

// Four packed letters turned.
pub fn turned_four(b: u8) -> u8
    ensures { result ≡ turned_code 4 b }
{
    inner::looked_up(&inner::TURNED, b)
}
