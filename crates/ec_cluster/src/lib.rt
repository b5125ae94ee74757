//! Nodes of a network, with the program that they run and where its objects are. One step on them is one change of the world that they
//! show together.
//!
//! | modules | what they have |
//! |---|---|
//! | `cluster`, `forward` | the nodes, and what they know of where objects are |
//! | `objects`, `making`, `monitors`, `constants` | steps on objects at their nodes |
//! | `frames`, `finding`, `stops` | activations at the nodes of their own objects: one comes, goes or has its action done |
//! | `seen` | what nodes let a reader see: their world, read from their words |
//! | `system` | nodes with the rows of processes and what these have written; `specs/SystemSteps` says what an action makes of them |
#![tactic(auto)]

pub mod cluster;
pub mod constants;
pub mod finding;
pub mod forward;
pub mod frames;
pub mod making;
pub mod monitors;
pub mod objects;
pub mod seen;
pub mod stops;
pub mod system;
