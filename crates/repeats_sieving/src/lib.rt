// A sieve over ids: it drops ids whose key no other id has, before a sort of those that are left.
#![tactic(auto)]

pub mod inner; // the sieve
