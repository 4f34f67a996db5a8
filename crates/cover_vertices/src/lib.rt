// From the strings of a collection to a table that walks go over: the end weights are sorted, and equal ones become one vertex.
#![tactic(auto)]

pub mod inner; // for a caller that has judged the collection
