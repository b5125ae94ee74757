//! What nodes keep of a world whose activations are of any kind: the words of objects and activations at their places, texts and room.
//! Definitions and laws alone.
//!
//! | where | what is there |
//! |---|---|
//! | `specs/Things`, `Store`, `Held`, `Texts`, `Shows` | when nodes show a world |
//! | `laws` | nodes show the world after one change of what they keep, where they showed it before |
//! | `travelling`, `specs/Travelling` | nodes that show a world but for what travels: taken away at one node, and not yet put at another |
#![tactic(auto)]

pub mod laws;
pub mod travelling;
