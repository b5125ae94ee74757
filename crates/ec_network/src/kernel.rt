//! The kernel of a network's nodes: the action of a process is done to them, moves of objects between nodes with it, or a node is full and
//! nothing has changed.

pub mod acting;
pub mod acts;
mod moving;
mod steps;
