//! The wire form of parcels: objects with their monitors, and half-run activations, as bytes that are the same for every kind of
//! node.
#![tactic(auto)]

ghost use Rattle.std.specs.Prelude.{◌≡◌, ◌≤◌, List, length, IfOk};
ghost use Rattle.ec_formats.specs.Format.{read_all};
ghost use Rattle.ec_wire.specs.Answers.{IfRefused, Answers};
ghost use Rattle.ec_wire.specs.WireForm.{parcel as wire_form, IsWire};
ghost use Rattle.ec_wire.specs.declared.parcel.Contents.{Contents as TheContents};

mod contents;
pub mod error;
pub mod fields;
pub mod laws;
pub mod parcel;

use contents::{put_contents, read_contents};
use ec_formats::error::FieldError;
use error::{ReadError, WireError};
use parcel::Parcel;
use std::alloc::{AllocError, Global};

/// The bytes of a parcel.
pub fn write(alloc: Global, parcel: &Parcel) -> Result<Vec<u8>, AllocError>
    ensures { IfOk result (λ bytes. IsWire parcel.now bytes.items) }
{
    let mut out = Vec::new(alloc);
    put_contents(&mut out, parcel.contents())?;
    Ok(out)
}

/// The parcel whose bytes these are.
///
/// `Wire` comes exactly where no parcel has these bytes. No count takes more room than the bytes behind it could fill
/// (`ec_formats::field::room_for`).
pub fn read(alloc: Global, bytes: &[u8]) -> Result<Parcel, ReadError>
    // The parcel that is read has these bytes.
    ensures found { IfOk result (λ p. IsWire p bytes.now) }
    // Bytes are refused only where no parcel has them.
    ensures refused { IfRefused result (λ _. (p : TheContents) → IsWire p bytes.now → ⊥) }

    // The place of a fault is where the first field starts that is cut short or breaks its rule; it lies within the bytes, or just
    // at their end.
    ensures answer { Answers result (read_all wire_form bytes.now) }
    ensures within { IfRefused result (λ fault. fault.at ≤ length bytes.now) }
{
    match read_contents(alloc, bytes) {
        Ok(contents) => Ok(Parcel::new(contents)),
        Err(FieldError::Memory) => Err(ReadError::Memory),
        Err(FieldError::Fault(left)) => {
            let at = bytes.len() - left;
            Err(ReadError::Wire(WireError { at }))
        }
    }
}

#[cfg(test)]
mod tests;
