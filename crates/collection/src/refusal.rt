// Why a call refuses.
ghost use Rattle.std.specs.Prelude.{◌≡◌, Err};
ghost use Rattle.collection.specs.Verdict.{number_of, place_of, told};

use std::error::Error;
use std::fmt;

// The refusals, in the order of their numbers (8.1). Those that are given at a place have it.
#[derive(Clone, Copy, Debug, PartialEq, Eq)]
pub enum Refusal {
    Room,
    Sizes,
    Limits,
    Ends { place: usize },
    Letters { place: usize },
    Weights { place: usize },
    Repeated { place: usize },
    Places { place: usize },
    Question,
    Index,
    Line { place: usize },
    RunList,
}

impl Refusal {
    // Its number.
    pub fn number(self) -> u32
        ensures { result ≡ number_of self }
    {
        match self {
            Refusal::Room => 1,
            Refusal::Sizes => 2,
            Refusal::Limits => 3,
            Refusal::Ends { .. } => 4,
            Refusal::Letters { .. } => 5,
            Refusal::Weights { .. } => 6,
            Refusal::Repeated { .. } => 7,
            Refusal::Places { .. } => 8,
            Refusal::Question => 9,
            Refusal::Index => 10,
            Refusal::Line { .. } => 11,
            Refusal::RunList => 12,
        }
    }

    // Its place; 0 where it has none.
    pub fn place(self) -> usize
        ensures { result ≡ place_of self }
    {
        match self {
            Refusal::Ends { place }
            | Refusal::Letters { place }
            | Refusal::Weights { place }
            | Refusal::Repeated { place }
            | Refusal::Places { place }
            | Refusal::Line { place } => place,
            _ => 0,
        }
    }

    // Both, for those that are told numbers.
    #[tactic(auto, unfolding(crate::specs::Verdict::told))]
    pub fn told(self) -> Told
        ensures { result ≡ told (Err self) }
    {
        Told {
            number: self.number(),
            place: self.place(),
        }
    }
}

// What `{}` writes of a refusal: the line that a report has of it, without its line feed (10.2).
impl fmt::Display for Refusal {
    ghost use Rattle.std.specs.Prelude.{Some};
    ghost use Rattle.collection.specs.Verdict.{refusal_text};

    ghost output = { λ r. Some (refusal_text r) };

    fn fmt<W: fmt::Write>(&self, f: &mut fmt::Formatter<W>) -> fmt::Result {
        write!(f, "refused\t{}\t{}", self.number(), self.place())
    }
}

impl Error for Refusal {}

// The number and the place of a refusal; 0 and 0 where nothing is refused.
#[derive(Clone, Copy, Debug, PartialEq, Eq)]
pub struct Told {
    pub number: u32,
    pub place: usize,
}
