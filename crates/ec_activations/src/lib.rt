//! Activations of three-address code as nodes keep them in frames: definitions and laws alone.
//!
//! Each value of an activation has a word in its frame, and each such word is that of one value (`laws`). What rests at a stop in a sound world
//! rests so in its frame: the stop has its entry in the stop table, and the frame holds the operands (`resting`).
#![tactic(auto)]

pub mod laws;
pub mod resting;
