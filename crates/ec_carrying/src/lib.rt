//! Parcels and nodes: from bytes to a node, whoever made them (`unpacking`); and the things of a parcel go from one node of a cluster to
//! another (`carrying`), with the move noted.
#![tactic(auto)]

pub mod carrying;
pub mod laws;
mod moving;
mod taking;
pub mod unpacking;
