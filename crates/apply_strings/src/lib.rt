// Strings in a new order, each as it is or turned: its letters and its weights together.
#![tactic(auto)]

pub mod inner;
mod writing;
