//! Forwarding addresses: what each node knows of where objects are, which is made newer as they are looked for.
#![tactic(auto)]

pub mod address;
pub mod forwarding;
mod known;
#[cfg(test)]
mod tests;
mod trail;
