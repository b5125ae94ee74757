//! The standard output as a sink. It tells no bytes: what the system does with them no contract says.
ghost use Rattle.std.specs.Prelude.{◌≡◌, []};

use crate::fault::Failed;
use crate::sink::Sink;
use std::io::Print;
use std::marker::Model;

/// What prints, with a count of its faults from 0 to 2^64 - 1. Each call writes at once, with no buffer between.
#[derive(Drop)]
pub struct OutSink<P> {
    out: P,
    faults: u64,
}

impl<P> Model for OutSink<P> {
    ghost use Rattle.std.specs.Prelude.{ℕ};

    ghost Value = { ℕ };

    ghost view = { λ s. s.faults };
}

impl<P: Print> Sink for OutSink<P> {
    ghost tells = { λ _. ⊥ };

    ghost taken = { λ _. [] };

    ghost faults = { λ faults. faults };

    /// One write of the piece's first bytes; an error, or nothing written of some bytes, is a fault.
    fn put(&mut self, piece: &[u8]) -> Result<usize, Failed> {
        match self.out.write_some(piece) {
            Ok(n) if n > 0 || piece.is_empty() => Ok(n),
            _ => {
                self.faults = self.faults.saturating_add(1);
                Err(Failed)
            }
        }
    }
}

impl<P: Print> OutSink<P> {
    /// A sink that has met no fault.
    pub fn new(out: P) -> OutSink<P>
        ensures { result ≡ 0 }
    {
        OutSink { out, faults: 0 }
    }

    /// The count of faults.
    pub fn faults(&self) -> u64
        ensures { result ≡ self.now }
    {
        self.faults
    }
}
