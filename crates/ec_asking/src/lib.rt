//! What the processes of a system ask of its nodes: who acts, and what the stop comes to there.
#![tactic(auto)]

mod acting;
pub mod asking;
pub mod laws;
pub mod requests;
mod stops;
