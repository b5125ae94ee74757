//! What one node keeps: its memory in the byte order of its kind, objects, activations, local references and texts.
#![tactic(auto)]

mod frames;
mod lists;
pub mod memory;
mod monitors;
pub mod node;
mod owners;
pub mod pool;
mod references;
pub mod rows;
mod running;
mod tables;
#[cfg(test)]
mod trials;
mod words;
