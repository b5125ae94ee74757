//! The numbers of a program's classes on the wire: its code makes vectors of the type of each vector that is in a world of the program,
//! so that the class of each object has a number, but that of nodes.

pub mod laws;
pub mod numbers;
