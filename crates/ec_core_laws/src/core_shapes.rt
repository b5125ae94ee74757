//! What the core of a program that breaks no static rule looks like: the form of its parts and their types, on which the typing of emitted
//! code rests, and how it makes its objects.

pub mod core_makings;
pub mod laws;
