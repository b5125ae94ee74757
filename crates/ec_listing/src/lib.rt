//! The machine code of accepted sources as text, for people who look.
//!
//! | module | what it has |
//! |---|---|
//! | `listing` | the listing of a source for a kind of machine, operation by operation |
//! | `lines` | its lines: the heading of an operation, a word with its instruction, a stop and what is live there |
//! | `homes` | what types, variables and homes are called |
//! | `names`, `stops` | what operations and classes are called, what a stop does, and on which line of the source it stands |
//! | `riscv`, `mips` | an instruction in GNU syntax |
#![tactic(auto)]

pub mod homes;
pub mod lines;
pub mod listing;
pub mod mips;
pub mod names;
pub mod riscv;
pub mod stops;
