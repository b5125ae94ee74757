//! Files read whole and texts written whole, piece by piece.
ghost use Rattle.std.specs.Prelude.{◌≡◌, ℕ, List, ◌<◌, ◌≤◌, ◌++◌, false, true, length, vec_len, IfOk, OnOk, OnErr, IsErrOf};
ghost use Rattle.ec_outside.specs.Fault.{HasRisen, ShareCount};
ghost use Rattle.ec_outside.specs.Whole.{IsFront, IsWhole, GrowsByFront};

use crate::fault::Failed;
use crate::shelf::Shelf;
use crate::sink::Sink;
use std::alloc::{AllocError, Global};

/// Why a file wasn't read.
#[derive(Clone, Copy, Debug, PartialEq, Eq)]
pub enum ReadError {
    /// A read met a fault.
    Failed,

    /// There was no memory for the bytes.
    Memory,
}

impl From<Failed> for ReadError {
    ghost use Rattle.ec_outside.specs.declared.whole.ReadError.{ReadError};

    ghost from_gives = { λ _ e. e ≡ ReadError.Failed };

    fn from(_failed: Failed) -> ReadError {
        ReadError::Failed
    }
}

impl From<AllocError> for ReadError {
    ghost use Rattle.ec_outside.specs.declared.whole.ReadError.{ReadError};

    ghost from_gives = { λ _ e. e ≡ ReadError.Memory };

    fn from(_error: AllocError) -> ReadError {
        ReadError::Memory
    }
}

/// The most bytes that one call asks a shelf for.
const PIECE: usize = 4096;

/// Reads what a file holds, up to `limit` bytes. It calls the shelf at most `limit` + 1 times, since each call
/// but the last brings at least a byte.
pub fn read_whole<F: Shelf>(
    alloc: Global,
    shelf: &mut F,
    name: &str,
    limit: usize,
) -> Result<Vec<u8>, ReadError>
    // Of the file.
    ensures read { IfOk result (λ v. F.tells shelf.old → IsWhole (F.content shelf.old name.now) limit v.items) }
    ensures within { IfOk result (λ v. vec_len v ≤ limit) }
    ensures still_tells { F.tells shelf.old → F.tells shelf.new }
    ensures content { F.content shelf.new ≡ F.content shelf.old }
    ensures kept { F.kept shelf.new ≡ F.kept shelf.old }

    // Of the faults.
    ensures ok { OnOk result (F.faults shelf.new ≡ F.faults shelf.old) }
    ensures memory { IsErrOf result ReadError.Memory → F.faults shelf.new ≡ F.faults shelf.old }
    ensures failed { IsErrOf result ReadError.Failed →
        HasRisen (F.faults shelf.old name.now) (F.faults shelf.new name.now) }
    ensures others { (other : List ℕ) → ¬ ShareCount (F.kept shelf.old) name.now other →
        F.faults shelf.new other ≡ F.faults shelf.old other }
    ensures never_falls { (other : List ℕ) → F.faults shelf.old other ≤ F.faults shelf.new other }
{
    let mut bytes = Vec::new(alloc);
    while read_more(shelf, name, &mut bytes, limit)? {}
    Ok(bytes)
}

/// One read of what comes next of a file, up to `limit` bytes in all; whether more may come.
fn read_more<F: Shelf>(
    shelf: &mut F,
    name: &str,
    bytes: &mut Vec<u8>,
    limit: usize,
) -> Result<bool, ReadError>
    requires { vec_len bytes.old ≤ limit }

    // Of the file.
    ensures front { OnOk result (F.tells shelf.old → IsFront (F.content shelf.old name.now) bytes.old.items →
        IsFront (F.content shelf.old name.now) bytes.new.items) }
    ensures whole { IfOk result (λ more. more ≡ false → F.tells shelf.old →
        IsFront (F.content shelf.old name.now) bytes.old.items →
        IsWhole (F.content shelf.old name.now) limit bytes.new.items) }
    ensures within { OnOk result (vec_len bytes.new ≤ limit) }
    ensures more { IfOk result (λ more. more ≡ true → vec_len bytes.old < vec_len bytes.new) }
    ensures still_tells { F.tells shelf.old → F.tells shelf.new }
    ensures content { F.content shelf.new ≡ F.content shelf.old }
    ensures kept { F.kept shelf.new ≡ F.kept shelf.old }

    // Of the faults.
    ensures ok { OnOk result (F.faults shelf.new ≡ F.faults shelf.old) }
    ensures memory { IsErrOf result ReadError.Memory → F.faults shelf.new ≡ F.faults shelf.old }
    ensures failed { IsErrOf result ReadError.Failed →
        HasRisen (F.faults shelf.old name.now) (F.faults shelf.new name.now) }
    ensures others { (other : List ℕ) → ¬ ShareCount (F.kept shelf.old) name.now other →
        F.faults shelf.new other ≡ F.faults shelf.old other }
    ensures never_falls { (other : List ℕ) → F.faults shelf.old other ≤ F.faults shelf.new other }
{
    let mut piece = [0u8; PIECE];
    let room = (limit - bytes.len()).min(PIECE);
    let piece = &mut piece[..room];
    let n = shelf.read_at(name, bytes.len() as u64, piece)?;
    bytes.extend_from_slice(&piece[..n])?;
    Ok(n > 0 && bytes.len() < limit)
}

/// Puts all of a text into a sink. It calls the sink at most as many times as the text has bytes, since each
/// call but a failing one takes at least a byte; it takes no memory.
pub fn write_whole<K: Sink>(sink: &mut K, text: &[u8]) -> Result<(), Failed>
    // Of the bytes taken.
    ensures takes { OnOk result (K.tells sink.old → K.taken sink.new ≡ K.taken sink.old ++ text.now) }
    ensures front { OnErr result (K.tells sink.old →
        GrowsByFront (K.taken sink.old) (K.taken sink.new) text.now) }
    ensures still_tells { K.tells sink.old → K.tells sink.new }

    // Of the faults.
    ensures ok { OnOk result (K.faults sink.new ≡ K.faults sink.old) }
    ensures failed { OnErr result (HasRisen (K.faults sink.old) (K.faults sink.new)) }
    ensures never_falls { K.faults sink.old ≤ K.faults sink.new }
{
    let mut at = 0;
    while at < text.len() {
        at += sink.put(&text[at..])?;
    }
    Ok(())
}
