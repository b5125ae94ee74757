//! What happened that places depend on.
use crate::value::{Oid, Oids};

/// An object was made by the object `maker`, or the members of a group went to the node whose object is `target`.
#[derive(Drop)]
pub enum Event {
    Created { oid: Oid, maker: Oid },
    Moved { members: Oids, target: Oid },
}
