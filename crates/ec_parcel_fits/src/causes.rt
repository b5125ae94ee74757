//! What of a parcel doesn't fit at a node, and why.

use ec_world::room::Part;
use ec_world::value::{Oid, Pid};

/// What of a parcel doesn't fit, and why.
#[derive(Clone, Copy)]
pub enum Unfit {
    /// The object of this number.
    OfObject(Oid, ObjectCause),
    /// The monitor of the object of this number, which isn't in the parcel.
    OfMonitor(Oid),
    /// The activation of a process at a depth.
    OfActivation(Pid, u32, ActivationCause),
    /// All of it together wants more of this than the node has free.
    NoRoom(Part),
}

/// Why an object doesn't fit.
#[derive(Clone, Copy)]
pub enum ObjectCause {
    /// No class of the program has its class's number.
    NoClass,
    /// The node has an object of its number already.
    NumberTaken,
}

/// Why an activation doesn't fit.
#[derive(Clone, Copy)]
pub enum ActivationCause {
    /// The program has no such operation, or the operation no such stop.
    NoStop,
    /// It has more or fewer values than there are variables whose values go from the stop.
    Count,
    /// A variable has no word of the frame, or two that have one word have two values.
    Homes,
    /// The node has an activation at its depth of its process already.
    DepthTaken,
}
