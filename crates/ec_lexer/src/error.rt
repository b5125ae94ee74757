//! Why a text has no tokens.
ghost use Rattle.std.specs.Prelude.{◌≡◌};
ghost use Rattle.ec_lexer.specs.declared.error.LexError.TheVariants.{Memory};

use std::alloc::{AllocError, AllocFailed};
use thiserror::Error;

/// What is wrong with a text, and at which place.
#[derive(Clone, Copy, Debug, PartialEq, Eq, Error)]
pub enum LexFault {
    /// A byte that starts no token, or in a string a byte that may not stand there and isn't a line feed.
    /// The place is that byte.
    #[error("this byte starts no token, or may not stand in a string")]
    StrayByte,
    /// A line feed or the end of the text inside a string. The place is the opening quote.
    #[error("the string isn't closed on its line")]
    UnclosedString,
    /// A backslash in a string, with a byte behind it that is none of `n`, `t`, `\`, `"` and the line feed.
    /// The place is the backslash.
    #[error("this byte can't stand behind a backslash")]
    UnknownEscape,
    /// An integer over 2147483647. The place is its first digit.
    #[error("the integer is over 2147483647")]
    LargeInteger,
    /// More than 1,048,576 bytes of text. The place is 1,048,576.
    #[error("the text is over 1,048,576 bytes")]
    TextTooLong,
}

/// Why there is no answer.
#[derive(Clone, Copy, Debug, PartialEq, Eq, Error)]
pub enum LexError {
    /// The first fault of the text, at this byte, counted from 0.
    #[error("{kind} (byte {at})")]
    Refused { at: u32, kind: LexFault },
    /// There was no memory.
    #[error("there was no memory")]
    Memory,
}

impl From<AllocError> for LexError {
    ghost from_gives = { λ _ error. error ≡ Memory };

    fn from(_error: AllocError) -> LexError {
        LexError::Memory
    }
}

impl<T: Drop> From<AllocFailed<T>> for LexError {
    ghost from_gives = { λ _ error. error ≡ Memory };

    fn from(_error: AllocFailed<T>) -> LexError {
        LexError::Memory
    }
}
