// What READ answers. The meaning of a sheet stands in specs/, its laws in proofs/; the calls are `sheet_read` and `sheet_write`.
#![tactic(auto)]

// READ: k, and how many entries it filled in the tables of letters, ends and weights.
#[derive(Clone, Copy, Debug, PartialEq, Eq)]
pub struct Filled {
    pub k: usize,
    pub letters: usize,
    pub ends: usize,
    pub weights: usize,
}
