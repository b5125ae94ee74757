//! A run is watched, for people who look: what each of its entries does, kept as a history, of which ec_history prints pages.
//!
//! | modules | what they have |
//! |---|---|
//! | `watching` | the driver of a run on a network with the code's meaning beside it; it keeps a history |
//! | `before`, `deeds` | what is read before an entry, and behind it |
//! | `cargo` | what a move carries, with its bytes |
//! | `record` | a history in which nothing has happened, and how an end is told |
//! | `words` | values, causes of failures and waits in words |
#![tactic(auto)]

mod before;
mod cargo;
mod deeds;
pub mod record;
pub mod watching;
mod words;
