//! Three-address code with static types: what programs of it are, what they mean, when they are well typed, and which variables are live at
//! each place.
//!
//! | modules | what they have |
//! |---|---|
//! | `code`, `steps`, `activation` | programs, what a step reads and writes and where it leads, half-run activations |
//! | `live`, `marks`, `rows`, `extent` | the variables that are live at each place, exactly |
//! | `live_lists` | a law: each place has its list of live variables |
//! | `sound` | laws of well typed programs: values keep the types of their places, and neither a stop nor a step lacks a case |
//! | `ranges` | laws of programs with small numbers: values stay within 32 bits, and texts are bytes |
//! | `idle` | laws on activations whose action is done: code goes on behind their stops |
//!
//! What code means is in `specs/Activations` and `specs/Worlds`; when it is well typed, in `specs/Typing` and `specs/Fine`.
#![tactic(auto)]

pub mod activation;
pub mod code;
mod extent;
pub mod idle;
pub mod live;
pub mod live_lists;
mod marks;
pub mod ranges;
mod rows;
pub mod sound;
pub mod steps;
