//! No-ops behind reads of HI and LO and behind loads in MIPS code, dropped where nothing needs them.
//!
//! MIPS I asks for two instructions between a read of HI or LO and the next that writes them, and for one between a load and the next that
//! touches the register. The words of a step have two no-ops behind each read and one behind each load, whatever comes next; mostly
//! nothing that comes next writes HI or LO, and often it doesn't touch the register.
//!
//! | modules | what they have |
//! |---|---|
//! | `waits` | the call |
//! | `needless` | which no-ops nothing needs |
//! | `words` | the words that stay |
//! | `laws` | that such a code follows the code that it was |
#![tactic(auto)]

pub mod laws;
mod needless;
pub mod waits;
mod words;
