//! What a source means: its activations, the parts of the core that are still to do in them, and a plain run of them.
#![tactic(auto)]

pub mod activation;
mod behind;
mod class_names;
pub mod classes;
pub(crate) mod copies;
pub mod item;
pub mod laws;
pub mod meaning;
pub mod readers;
pub mod settle;
pub mod source;
pub mod start;
pub mod state;
mod steps;
pub mod todo;
pub mod types;
mod worlds;
