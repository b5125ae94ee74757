//! An action that is looked at is done to nodes, in two steps, as the world that they show has it; and a program is loaded onto nodes.
//!
//! | modules | what they have |
//! |---|---|
//! | `doings`, `plain`, `making`, `monitors`, `seeking` | the first step: objects, constants, monitors, output |
//! | `settling`, `effects`, `giving`, `rows` | the second step: what becomes of activations and processes |
//! | `load`, `fresh`, `objects` | nodes on which a program begins: literals, constants, the first objects and the first activation |
#![tactic(auto)]

pub mod doings;
mod effects;
mod fresh;
mod giving;
pub mod load;
mod making;
mod monitors;
mod objects;
mod plain;
mod rows;
mod seeking;
pub mod settling;
