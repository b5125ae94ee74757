//! Objects of a world at one node: words for their values, values of these words, and what a node lacks.
//!
//! | modules | what they have |
//! |---|---|
//! | `values` | words as values, and values as words |
//! | `objects`, `texts` | objects come to a node, with the texts that are new there |
//! | `monitors`, `flags`, `constants` | monitors, what is fixed, constants of the program |
//! | `lacks` | what a node lacks for blocks and values that come to it: blocks before text |
#![tactic(auto)]

pub mod constants;
pub mod flags;
pub mod lacks;
pub mod monitors;
pub mod objects;
pub mod texts;
pub mod values;
