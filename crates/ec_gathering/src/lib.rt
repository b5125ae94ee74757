//! The first step of a move between nodes: a group goes to where another object is, in one parcel from each other node that has some of it;
//! or the node to which it goes is full, and nothing has changed (`gathering`).
//!
//! | modules | what they have |
//! |---|---|
//! | `shipping` | the parcels in which a group goes, and their bytes |
//! | `lacking` | what the node lacks for all of them together |
//! | `bringing` | the parcels come to the node |
//! | `gathering_room` | laws: the worlds before and after the move tell the same lack |
//! | `laws` | laws: what a move comes to, and that moves by programs and by the operator may be done so |
#![tactic(auto)]

mod bringing;
pub mod gathering;
pub mod gathering_room;
mod lacking;
pub mod laws;
mod shipping;
