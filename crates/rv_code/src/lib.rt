//! The words of steps, questions and jumps on RISC-V, and that they do what the steps do.
//!
//! | modules | what they have |
//! |---|---|
//! | `riscv` | the kind of machine, for ec_generate |
//! | `steps`, `work`, `sources`, `answers` | the words of each step and of each question |
//! | `instructions`, `numbers`, `sizes` | instructions, immediates of twelve bits, counts of words |
//! | `laws` | a law: the words do what the steps do (`specs/Meaning`, `specs/Words`) |
#![tactic(auto)]

mod answers;
mod instructions;
pub mod laws;
mod numbers;
pub mod riscv;
mod sizes;
mod sources;
mod steps;
mod work;
