//! Native code of an activation, from a stop to the next one, at its node.
//!
//! | modules | what they have |
//! |---|---|
//! | `legs`, `machine` | a machine is set up for an activation and runs to the next stop, for any kind of machine |
//! | `kind`, `riscv`, `mips`, `machines` | RISC-V and MIPS I as kinds of machines, and a machine of each |
//! | `going`, `nodes` | a process of a system goes on, at its node: what the system shows is the world in which it has |
//! | `laws` | when activations can go on, and what a system keeps when one has |
//!
//! That the code is run by the machine's own table of instructions is `RanNatively` (`specs/Going`).
#![tactic(auto)]

pub mod going;
pub mod kind;
pub mod laws;
pub mod legs;
mod machine;
pub mod machines;
pub mod mips;
mod nodes;
pub mod riscv;
