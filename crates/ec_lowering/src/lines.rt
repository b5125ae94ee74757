//! Operations of three-address code, from their steps: the variables that are live at each place, and the types of these.

mod lines;
pub mod operations;
mod site;
mod steps;
mod temporaries;
mod types;
