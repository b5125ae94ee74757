//! What a run is given: the words of the command line, the node file and the schedule.
#![tactic(auto)]

pub mod nodes;
pub mod schedule;
pub mod words;
