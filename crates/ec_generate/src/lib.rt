//! Machine code of a program with its stop table, for every kind of machine that has words for steps. Together they are an image.
//!
//! | modules | what they have |
//! |---|---|
//! | `image` | the image of a program: words, and the stop table that is bound to them |
//! | `program`, `operation`, `order`, `lowering`, `conditions`, `direct`, `site`, `sizes` | the words of code |
//! | `fitting` | the programs of which code can be made |
//! | `kind` | what a kind of machine writes: rv_code and mips_code have one each |
//! | `assign`, `addresses`, `entries`, `table` | the stop table: homes of variables, addresses of stops, what is live at each |
//!
//! `specs/Limits` says which programs have activations and monitors that can be spelled on the wire.
#![tactic(auto)]

pub mod addresses;
pub mod assign;
pub mod conditions;
mod direct;
pub mod entries;
pub mod fitting;
pub mod image;
pub mod kind;
mod lowering;
mod operation;
mod order;
pub mod program;
mod site;
mod sizes;
pub mod table;
