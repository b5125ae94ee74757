//! Which node lacks room for an action, and what it lacks. Nothing has changed then.
//!
//! | modules | what they have |
//! |---|---|
//! | `fullness` | the first lack of an action, if there is one |
//! | `making`, `starting`, `taking` | what is lacking for a new object, for a new activation, for what a stop gives |
//! | `nodes` | what nodes lack for blocks and values that come to them |
//! | `laws` | laws: but for room, both steps of an action find on the nodes what they name (`specs/Fitting`) |
#![tactic(auto)]

pub mod fullness;
pub mod laws;
mod making;
mod nodes;
mod starting;
mod taking;
