//! What lies outside the tool: shelves that files are read from and sinks that bytes are written to.
#![tactic(auto)]

pub mod fault;
pub mod file_shelf;
pub mod mem_shelf;
pub mod mem_sink;
pub mod out_sink;
pub mod shelf;
pub mod sink;
#[cfg(test)]
mod tests;
pub mod whole;
