//! What is told of a run, its lines and its status; and the driver that does the entries of a schedule in order, and then each process in
//! turn, up to the end. What is driven is a plain meaning, or a network.
#![tactic(auto)]

pub mod answer;
pub mod course;
pub mod drive;
pub mod driver;
pub mod end;
pub mod lines;
pub mod processes;
pub mod status;
pub mod step;
