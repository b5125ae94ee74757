//! Formats as data: numbers, texts and lists as bytes, read from left to right, with the place of the first fault.
#![tactic(auto)]

pub mod error;
pub mod field;
pub mod laws;
pub mod reading;
#[cfg(test)]
mod tests;
pub mod writing;
