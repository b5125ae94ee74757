//! What lowering rests on, of each accepted program: laws alone.
//!
//! | module | what it has |
//! |---|---|
//! | `laws` | each part of a well typed core is one that has code |
//! | `core_drops` | what a statement of such a core drops gives a value, or is a call |
//! | `lowered_code` | the program that a source is lowered to is its code, so that their worlds agree |
//! | `small_programs` | it names no number and no text out of range |
#![tactic(auto)]

pub mod core_drops;
pub mod laws;
pub mod lowered_code;
pub mod small_programs;
