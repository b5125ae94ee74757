//! The first static fault of a program: one walk over its tree, with the rules of ec_rules at each part.
#![tactic(auto)]

pub mod blocks;
pub mod expressions;
pub mod holders;
pub mod links;
pub mod program;
pub mod walk;
