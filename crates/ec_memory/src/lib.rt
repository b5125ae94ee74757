//! The memory of a node: its blocks and its globals.
#![tactic(auto)]

pub mod blocks;
mod region;
