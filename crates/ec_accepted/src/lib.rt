//! What an accepted program is lowered to is well typed, and its worlds agree with the source's; so the source's meaning never sticks: laws
//! alone.
//!
//! | module | what it has |
//! |---|---|
//! | `laws` | the laws that the crates above cite: typing and agreement, of each accepted program |
//! | `fineness` | code that is well typed by lists with more than what is live is well typed by what is live alone |
//! | `fine_classes`, `fine_programs` | the classes of a lowered program, its beginning and all of it are well typed |
#![tactic(auto)]

pub mod fine_classes;
pub mod fine_programs;
pub mod fineness;
pub mod laws;
