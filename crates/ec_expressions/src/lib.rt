//! What writes the three-address code of expressions. It is written from its end to its beginning, so that how far a jump goes is known when
//! it is made (`backward`).
//!
//! | modules | what they have |
//! |---|---|
//! | `emitter`, `backward`, `rows` | what code is made of: steps in their order, and stops |
//! | `expressions`, `conditions`, `operators`, `steps`, `leaves`, `places` | the code of each form of expression |
//! | `literals`, `texts` | the literals of a program, found by an ordered map: the empty text, then each text of the core once |
//! | `tables`, `types` | constants and classes by their numbers, and the types of what stops give |
#![tactic(auto)]

pub mod backward;
pub mod conditions;
pub mod emitter;
mod expressions;
mod leaves;
pub mod literals;
mod operators;
mod places;
pub mod rows;
mod steps;
pub mod tables;
mod texts;
mod types;
