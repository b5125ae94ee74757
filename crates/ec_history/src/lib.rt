//! What happened in a run, as plain data, and the pages that are printed of it. It stands on no other crate: whoever has a history can print it.
//! Each page is written behind what its string has, and its one error is want of memory.
//!
//! | modules | what they have |
//! |---|---|
//! | `history` | nodes, objects, and what each entry did |
//! | `trace`, `objects` | what each entry did; which objects there are, and which entries made and moved them |
//! | `course`, `layout` | what is where and when, and where that is drawn |
//! | `picture`, `strip` | the map of a run as SVG, and as lines of text |
#![tactic(auto)]

mod course;
pub mod history;
mod layout;
pub mod objects;
pub mod picture;
pub mod strip;
pub mod trace;
