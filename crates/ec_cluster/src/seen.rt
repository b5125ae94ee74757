//! What nodes let a reader see: the world that they show, read from their words.

pub mod doings;
pub mod laws;
mod links;
mod searching;
pub mod seen;
