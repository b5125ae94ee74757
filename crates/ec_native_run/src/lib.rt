//! The run of an accepted source by machine code: its code is loaded onto nodes, entries are done up to the end, and the end is reported.
#![tactic(auto)]

mod driver;
mod processes;
mod report;
pub mod run;

pub use ec_network::nodes_running::network;
