// Canonical codes: one number for a word and its reverse complement, the smaller of their two codes.
#![tactic(auto)]

pub mod inner; // the codes of a collection's k-mers, for callers that have judged it
