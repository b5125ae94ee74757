//! Why a table isn't read on.
use hex::FromHexError;
use std::alloc::AllocError;
use std::io;
use thiserror::Error;

/// What is wrong in a line.
#[derive(Debug, Drop, Error)]
pub enum Fault {
    /// It has no ` -> `.
    #[error("no such line")]
    NoSuchLine,
    /// Bytes in hexadecimal digits are wanted there.
    #[error("bytes are wanted here")]
    NoBytes(#[from] FromHexError),
    /// There was no memory.
    #[error(transparent)]
    Memory(#[from(alloc)] AllocError),
}

/// Why a table isn't read on.
#[derive(Debug, Drop, Error)]
pub enum TableError {
    /// A line can't be read.
    #[error("line {line}: {fault}")]
    Refused { line: usize, fault: Fault },
    /// There was no memory.
    #[error(transparent)]
    Memory(#[from(alloc)] AllocError),
    /// The table wasn't read, or what came out wasn't written.
    #[error(transparent)]
    Outside(#[from] io::Error),
}
