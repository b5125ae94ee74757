//! Monitors: processes enter, leave, wait and signal, one at a time within.
#![tactic(auto)]

pub mod laws;
mod lists;
pub mod monitor;
pub mod record;
#[cfg(test)]
mod trials;
