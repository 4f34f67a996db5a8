// The rows of an index, judged and walked.
#![tactic(auto)]

pub mod inner;

// Where a walk ends: at a k-mer, or past the last; with the number compared. No Option: a miss has that number too.
#[derive(Clone, Copy, Debug, PartialEq, Eq)]
pub enum Met {
    Hit { handle: usize, compared: u64 },
    Miss { compared: u64 },
}
