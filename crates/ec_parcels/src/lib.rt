//! What a parcel holds of a group that moves, and what it brings to a node.
//!
//! | modules | what they have |
//! |---|---|
//! | `mover` | objects and activations that leave a node in a parcel, or come to a node in one |
//! | `class_numbers` | the numbers of a program's classes on the wire; each object of its worlds has a class with one |
//! | `laws` | laws: the owners in a parcel, each once (`specs/Owners`, `specs/Parcels`) |
#![tactic(auto)]

pub mod class_numbers;
pub mod laws;
pub mod mover;
