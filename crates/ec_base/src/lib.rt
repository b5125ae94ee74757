//! Lists that contracts see as lists, with the lemmas that every crate above cites.
#![tactic(auto)]

pub mod list;
