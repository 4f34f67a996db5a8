// Tables in the order of their keys, with a work table that the caller lends.
#![tactic(auto)]

pub mod inner; // for callers that show that the tables have room
