//! Addresses of objects.
use ec_world::value::NodeNo;

/// Where an object was after so many of its moves.
#[derive(Clone, Copy, Drop)]
pub struct Address {
    pub node: NodeNo,
    pub moves: u64,
}

/// The address that a node has of an object.
#[derive(Clone, Copy, Drop)]
pub struct Known {
    pub at: NodeNo,
    pub address: Address,
}
