//! The types of a program: its names (`names`), which types conform to which (`conform`), what is in scope where (`scopes`), and laws of
//! conformity: it composes, and each type conforms to itself.
#![tactic(auto)]

pub mod conform;
pub mod laws;
pub mod names;
pub mod scopes;
