//! What lowering may rest on: laws of the core of a program that breaks no static rule.
//!
//! | modules | what they have |
//! |---|---|
//! | `laws` | what machine code needs: sizes, exits, waits, numbers, known types |
//! | `core_shapes` | how its parts are formed, and how it makes its objects |
//! | `core_texts` | what ties it to its text, and sizes that the text bounds |
#![tactic(auto)]

pub mod core_shapes;
pub mod core_texts;
pub mod laws;
