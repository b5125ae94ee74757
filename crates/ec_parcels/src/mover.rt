//! What leaves a node in a parcel, and what a parcel brings to a node.

pub mod activations;
pub mod classes;
pub mod laws;
pub mod objects;
