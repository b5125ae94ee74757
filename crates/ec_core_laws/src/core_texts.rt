//! What ties the core of an accepted program to its text: names, order and places; its literals, which are lists of bytes; and its sizes, which
//! the length of the text bounds.

pub mod core_sizes;
pub mod core_ties;
pub mod laws;
