//! A plain run of a source: its meaning turn by turn, with no machine code, and the report of it.
#![tactic(auto)]

mod driver;
mod report;
pub mod run;
