//! What goes of a group from a node, as a parcel.
//!
//! | modules | what they have |
//! |---|---|
//! | `packing`, `objects`, `activations`, `blocks` | the parcel, from the words of the node |
//! | `room` | what a node lacks for parcels to come to it |
//! | `widths` | that the numbers in a parcel have 32 bits |
//! | `laws` | laws: between turns the things of a program's worlds can leave their nodes |
#![tactic(auto)]

mod activations;
mod blocks;
pub mod laws;
mod objects;
pub mod packing;
pub mod room;
mod widths;
