//! What a call of a network comes to.
use ec_world::room::Lack;
use std::alloc::AllocError;
use thiserror::Error;

/// What a turn did, or a move by the operator.
#[derive(Drop)]
pub enum Did {
    /// Nothing. Of a turn: the process is not there or not Ready, or it has no activation. Of a move: the object or the node is not there, or
    /// a member of the object's group is fixed.
    Idle,
    /// The action of the stop, where it was to be done, and then so many instructions up to the next stop.
    Acted { steps: u64 },
    /// The object's group has gone to where the object of the node is.
    Moved,
}

/// Why a turn was not taken, or a move by the operator not made.
#[derive(Clone, Copy, Debug, Error)]
pub enum NetError {
    /// A node lacks room for it. Nothing has changed.
    #[error("a node lacks room: {0:?}")]
    Full(Lack),
    /// There was no memory, or a table of numbers of 32 bits is full; or a call before this one has met that. The network is spent.
    #[error("there was no memory")]
    Memory(AllocError),
}
