//! What three-address code means, step by step: a walk from each stop to the next one.
#![tactic(auto)]

mod arithmetic;
pub mod code;
mod machine;
mod reading;
mod steps;
mod testing;
mod walking;
