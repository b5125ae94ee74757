//! Why bytes are no parcel.
use thiserror::Error;

/// Bytes that are no parcel.
#[derive(Clone, Copy, Debug, PartialEq, Eq, Error)]
#[error("these bytes are no parcel (byte {at})")]
pub struct WireError {
    /// The place, in bytes from 0, where the first field starts that is cut short or breaks its rule. Where bytes are left over
    /// behind a parcel, the place of the first of them.
    pub at: usize,
}

/// Why no parcel was read.
#[derive(Clone, Copy, Debug, PartialEq, Eq, Error)]
pub enum ReadError {
    /// There was no memory.
    #[error("there was no memory")]
    Memory,
    /// No parcel has these bytes.
    #[error("{0}")]
    Wire(WireError),
}
