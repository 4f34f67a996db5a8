// Text in lent tables: numbers in decimal written and read, bytes copied. Nothing here knows what a text is about.
#![tactic(auto)]

pub mod inner; // for callers that show where the bytes have room

ghost use Rattle.std.specs.Prelude.{◌≡◌};
ghost use Rattle.text.specs.Fields.{byte_is};

// A number at a place of a text: its value, and where its field ends.
#[derive(Clone, Copy, Debug, PartialEq, Eq)]
pub struct Number {
    pub value: u32,
    pub next: usize,
}

// Whether a byte stands at a place.
pub fn byte_is(s: &[u8], i: usize, b: u8) -> bool
    ensures { result ≡ byte_is s.now i b }
{
    s.get(i) == Some(&b)
}
