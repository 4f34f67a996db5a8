// What a call's answer tells a host that has no enums: a number to return and values for a table.
#![tactic(auto)]

pub mod inner;

// As many values as the call answers: the C functions write them into a table, and hosts read them there by their number.
#[derive(Clone, Copy, Debug, PartialEq, Eq)]
pub enum Reply {
    One(u64),
    Two(u64, u64),
    Three(u64, u64, u64),
    Four(u64, u64, u64, u64),
}
