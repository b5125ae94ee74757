//! Passes over machine code, of any kind: when a code follows another one from stop to stop, and that it is faithful then.
#![tactic(auto)]

pub mod laws;
