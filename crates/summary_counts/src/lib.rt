// Numbers of the weights of a judged collection.
#![tactic(auto)]

pub mod inner;
