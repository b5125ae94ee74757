//! The core of a program that breaks no static rule: its tree, with each name, type and operation resolved.
#![tactic(auto)]

mod chains;
pub mod check;
mod expressions;
mod holders;
pub mod laws;
mod program;
mod resolver;
mod statements;
mod variables;
