//! Who owns blocks.
use crate::value::{Oid, Pid};

/// An owner of blocks: an object, or the activation of a process at a depth from the bottom (from 0).
#[derive(Clone, Copy, PartialEq, Eq, Debug)]
pub enum Key {
    Object(Oid),
    Frame { process: Pid, depth: u32 },
}
