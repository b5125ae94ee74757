//! Activations of three-address code in the frames of one node.
//!
//! | modules | what they have |
//! |---|---|
//! | `frames`, `operands` | what the headings of a frame say, and the operands of a pending action |
//! | `begin`, `finish` | an activation begins; its action is done, and it goes on |
//! | `carried`, `arrive` | an activation leaves the node as values; it comes to another with them |
//! | `laws` | a law: a stop has one number and one entry on both kinds of machine, so that what goes means the same there |
#![tactic(auto)]

pub mod arrive;
pub mod begin;
pub mod carried;
pub mod finish;
pub mod frames;
pub mod laws;
pub mod operands;
