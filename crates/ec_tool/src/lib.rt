//! The call of the program, from words and files to one text and a status (`emerald`).
//!
//! | modules | what they have |
//! |---|---|
//! | `emerald`, `call` | the call, with a clause for each promise about it |
//! | `files`, `file` | its files, each read whole, or the texts of a trial |
//! | `judge`, `take` | they are judged in their order; then the source is run, or its meaning worked out |
//! | `source`, `place` | which texts are programs; the line and the column of a fault |
//! | `refusal`, `answers`, `writing` | what is written where something is refused, or nothing is run |
//! | `laws` | each program has a meaning, and the headline speaks of some call |
//!
//! The promises are `specs/Promises`, over `specs/Verdict` (what a call comes to) and `specs/Asked` (what its words ask for).
#![tactic(auto)]

pub mod answers;
mod call;
pub mod emerald;
pub mod file;
mod files;
mod judge;
pub mod laws;
mod place;
pub mod refusal;
pub mod source;
mod take;
pub mod writing;

pub use ec_native_run::network;
pub use ec_report::status;
