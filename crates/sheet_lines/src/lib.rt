// The steps of READ: what stands at a place of a sheet, from one byte to all lines. The place goes from step to step as a
// number; each step answers what it found there, and where the next one starts, or None where the sheet is wrong there.
#![tactic(auto)]

pub mod fields;
pub mod inner;
pub mod lines;

// A string's line: where the next one starts, and how many letters and weights it has.
#[derive(Clone, Copy, Debug, PartialEq, Eq)]
pub struct Line {
    pub next: usize,
    pub letters: usize,
    pub weights: usize,
}

// Line 1: k, and where line 2 starts.
#[derive(Clone, Copy, Debug, PartialEq, Eq)]
pub struct Head {
    pub k: usize,
    pub next: usize,
}

// What the strings' lines hold.
#[derive(Clone, Copy, Debug, PartialEq, Eq)]
pub struct Totals {
    pub letters: usize,
    pub strings: usize,
    pub weights: usize,
}
