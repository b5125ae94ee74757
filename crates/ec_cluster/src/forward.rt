//! Which node each object is at.

pub mod laws;
pub mod whereabouts;
