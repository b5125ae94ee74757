//! Machine code of programs of three-address code, for any kind of machine: when it is faithful, and that code which is laid out by these
//! rules is.
//!
//! | where | what is there |
//! |---|---|
//! | `code`, `specs/Faithful`, `specs/Stops` | a program's words and the places of its stops; faithful code comes from each stop to the next, what is live in its home |
//! | `homes`, `meeting`, `specs/Frames` | in which registers and slots the variables of an operation live; the words of a frame |
//! | `step`, `specs/Micro`, `specs/Lowering` | steps on words in homes: the vocabulary between three-address code and instructions |
//! | `joined`, `specs/Direct` | which steps are laid out together, or lead further than they say |
//! | `specs/Speaks`, `specs/Layout` | what a kind of machine gives: words for each step; and how the words of a program lie |
//! | `laws` | laid out code is faithful, and behind each stop there is a state that fits |
//! | `specs/Limits` | how large a program may be, for code and frames to have room |
#![tactic(auto)]

pub mod code;
pub mod homes;
pub mod joined;
pub mod laws;
mod meeting;
pub mod step;
