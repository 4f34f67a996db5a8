// Definitions on lists (specs/) and their laws (proofs/) that every room above cites, and one loop over them.
#![tactic(auto)]

pub mod inner;
