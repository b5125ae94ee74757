//! What an action on nodes comes to.
use ec_world::room::Lack;
use std::alloc::AllocError;

/// What became of an action.
#[derive(Drop)]
pub enum Acted {
    /// There was none: the process is not there or not Ready, or the action of its stop was done already.
    Idle,
    /// It is done, and its effect has come to processes.
    Done,
}

/// Why an action was not done.
#[derive(Drop)]
pub enum ActError {
    /// A node lacks room for it. Nothing has changed.
    Full(Lack),
    /// There was no memory, or a table of numbers of 32 bits is full. Nothing is said of the nodes then.
    Memory(AllocError),
}
