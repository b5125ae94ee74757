//! Why a field was not read.
ghost use Rattle.std.specs.Prelude.{◌≡◌};
ghost use Rattle.ec_formats.specs.declared.error.FieldError.TheVariants.{Memory};

use std::alloc::{AllocError, AllocFailed};

/// Why a field was not read.
#[derive(Clone, Copy, Debug, PartialEq, Eq)]
pub enum FieldError {
    /// There was no memory.
    Memory,
    /// How many bytes are left where the first field starts that is cut short or breaks its rule.
    Fault(usize),
}

impl From<AllocError> for FieldError {
    ghost from_gives = { λ _ error. error ≡ Memory };

    fn from(_error: AllocError) -> FieldError {
        FieldError::Memory
    }
}

impl<T: Drop> From<AllocFailed<T>> for FieldError {
    ghost from_gives = { λ _ error. error ≡ Memory };

    fn from(_error: AllocFailed<T>) -> FieldError {
        FieldError::Memory
    }
}
