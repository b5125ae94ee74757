//! The vector types that are written in a text: in declarations, parameters and results as well as where vectors are made. Laws: its code makes
//! vectors of no others.
#![tactic(auto)]

pub mod laws;
#[cfg(test)]
mod tests;
pub mod written;
