//! Worlds of objects and processes, what the actions of stops do to them, what a turn and a run are, for activations of any kind; and
//! what a node keeps of a world.
//!
//! | modules | what they have |
//! |---|---|
//! | `value`, `text`, `object`, `class`, `process`, `common`, `world` | the parts of a world |
//! | `stop`, `doing`, `doings`, `done`, `operands`, `operations` | what the action of a stop comes to, and what is then done |
//! | `running`, `silent`, `moving`, `entering`, `granting` | turns, moves and monitors |
//! | `event`, `places`, `run`, `robin` | where objects are, and the order of a run |
//! | `node`, `key`, `laws` | kinds of nodes, the owners of blocks, words that stand for values, room |
//!
//! Two families of definitions and lemmas stand beside them: who waits for a monitor (`specs/Waiting`), and worlds whose activations
//! follow those of another meaning (`specs/Follows`, `Simulation`), so that their runs agree.
#![tactic(auto)]

pub mod activation;
pub mod class;
pub mod common;
pub mod doing;
pub mod doings;
mod done;
mod entering;
pub mod event;
mod granting;
pub mod group;
pub mod initial;
pub mod key;
pub mod laws;
mod making;
pub mod memory;
mod moving;
pub mod node;
pub mod object;
mod operands;
mod operations;
pub mod places;
pub mod process;
mod readers;
pub mod robin;
pub mod room;
pub mod run;
pub mod running;
pub mod same;
pub mod sight;
pub mod silent;
pub mod start;
pub mod stop;
mod text;
pub mod value;
mod vectors;
mod views;
pub mod world;
