//! Instructions of MIPS I and their words.
#![tactic(auto)]

pub mod field;
pub mod instr;
mod row;
pub mod word;
