//! The three-address code of statements, blocks and operations.

mod blocks;
mod counts;
pub mod operations;
mod statements;
