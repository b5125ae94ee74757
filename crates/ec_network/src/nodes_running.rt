//! A network of nodes that runs code of the whole language: a turn of a process asks nothing of its caller.

pub mod moving;
pub mod network;
mod running;
mod seeing;
mod turning;
pub mod turns;
