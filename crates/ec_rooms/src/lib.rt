//! Room and places, told by worlds and their events alone: laws on nodes that show a world.
//!
//! When a load or an entry finds no room, and which texts a pool has (`laws`): nodes that show the world are full exactly then. Where objects
//! are (`placing`): nodes have each object where the world's events have it, at the start and after each step.
#![tactic(auto)]

pub mod laws;
pub mod placing;
