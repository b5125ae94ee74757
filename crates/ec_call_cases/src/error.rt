//! Why a table isn't read on.
use std::alloc::AllocError;
use std::io;
use std::num::ParseIntError;
use thiserror::Error;

/// What is wrong in a line.
#[derive(Debug, Drop, Error)]
pub enum Fault {
    /// It is no line of a table.
    #[error("no such line")]
    NoSuchLine,
    /// It isn't text, as what stands behind a status is.
    #[error("behind a status stands text")]
    NoText,
    /// It is text of nothing.
    #[error("there is no file before this text")]
    TextOfNothing,
    /// It names a file that isn't there.
    #[error("no such file")]
    NoSuchFile,
    /// A number is wanted there.
    #[error("a number is wanted here")]
    NoNumber(#[from] ParseIntError),
    /// It begins a case without a status.
    #[error("this case has no status")]
    NoStatus,
    /// There was no memory.
    #[error(transparent)]
    Memory(#[from(alloc)] AllocError),
}

/// Why a table isn't read on.
#[derive(Debug, Drop, Error)]
pub enum TableError {
    /// A line can't be read.
    #[error("line {line}: {fault}")]
    Refused { line: usize, fault: Fault },
    /// There was no memory.
    #[error(transparent)]
    Memory(#[from(alloc)] AllocError),
    /// The table wasn't read, or what came out wasn't written.
    #[error(transparent)]
    Outside(#[from] io::Error),
}
