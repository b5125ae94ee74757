//! What writes the program of three-address code that a source is lowered to (`lower`): the code of statements, blocks and operations
//! (`statements`), and behind it the variables that are live at each place, with their types (`lines`). The code of expressions is in
//! ec_expressions; which program it is to be, in ec_emission.
#![tactic(auto)]

pub mod lines;
pub mod lower;
pub mod statements;
