//! Which three-address code a source is lowered to, and that it does what the source means: definitions and laws alone. What writes the code
//! is in ec_expressions and ec_lowering.
//!
//! | where | what is there |
//! |---|---|
//! | `specs/Expressions`, `Statements`, `Leaves`, `Literals`, `Rows`, `Types` | the code of each construct |
//! | `specs/Stands` | when code stands for what is still to do in an activation of the source; both then come to the same stop |
//! | `lowered`, `each_lowered` | the program that a source is lowered to (`specs/Lowered`): there is one, and only one |
//! | `agreement` | laws: the worlds of a source and of its code agree after each list of entries and along each schedule |
#![tactic(auto)]

pub mod agreement;
pub mod each_lowered;
pub mod lowered;
