//! The source, the node file and the schedule that the command `trial N` makes of its number.
#![tactic(auto)]

mod drawing;
pub mod drawn;
mod generator;
pub mod laws;
mod nodes;
mod schedule;
mod source;
pub mod texts;
pub mod trial;
