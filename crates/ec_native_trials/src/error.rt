//! Why cases aren't read on.
use ec_check::check::CheckError;
use ec_lexer::error::LexError;
use ec_parser::ParseError;
use std::alloc::AllocError;
use std::io;
use std::num::ParseIntError;
use thiserror::Error;

/// What is wrong in a case.
#[derive(Debug, Drop, Error)]
pub enum Fault {
    /// A line is none of a case's.
    #[error("no such line: {0}")]
    NoSuchLine(String),
    /// A number of 32 bits is wanted.
    #[error("a number is wanted")]
    NoNumber(#[from] ParseIntError),
    /// The case doesn't say what its loop should come to.
    #[error("the case has no result: {0}")]
    NoResult(String),
    /// The source has no tokens.
    #[error(transparent)]
    NoTokens(#[from] LexError),
    /// Its tokens have no tree.
    #[error(transparent)]
    NoTree(#[from] ParseError),
    /// The tree breaks a static rule.
    #[error("the source isn't accepted: {0:?}")]
    Refused(#[from] CheckError),
    /// There was no memory.
    #[error(transparent)]
    Memory(#[from(alloc)] AllocError),
    /// The cases weren't read, or what came out wasn't written.
    #[error(transparent)]
    Outside(#[from] io::Error),
}
