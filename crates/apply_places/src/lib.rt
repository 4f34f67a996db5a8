// 8: when signed places are refused, and which string has which place.
#![tactic(auto)]

pub mod inner;
