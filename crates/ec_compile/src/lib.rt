//! Machine code of accepted texts: from a program of three-address code to an image for each kind of machine.
//!
//! | module | what it has |
//! |---|---|
//! | `program` | what an accepted program is lowered to, as a value that keeps its typing |
//! | `compile` | an accepted text lowered and compiled, for any kind of machine |
//! | `rv_compile`, `mips_compile` | the same for RISC-V and for MIPS I |
//! | `code_sizes` | laws: the code is within the limits of machine code |
//! | `laws` | a law: the tables of both kinds name the same live values at each stop |
#![tactic(auto)]

pub mod code_sizes;
pub mod compile;
pub mod laws;
pub mod mips_compile;
pub mod program;
pub mod rv_compile;
