// The strings of a collection cut into stretches of k-mers with one minimizer.
#![tactic(auto)]

pub mod inner;
