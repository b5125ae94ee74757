//! What calls of libraries show and no whole call does so far. Only tests stand here.
#![tactic(auto)]

#[cfg(test)]
mod moving;
