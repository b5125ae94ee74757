//! A sink in memory that fails the calls it is told to.
ghost use Rattle.std.specs.Prelude.{◌≡◌, ◌-◌, ◌<◌, ◌≤◌, ◌↔◌, ◌⊎◌, ⊤, [], ◌++◌, min, take, length, IfOk, OnOk, OnErr, OnSome, IfSome};
ghost use Rattle.std.specs.Prelude.{IsNone, IsErr, Contains};
ghost use Rattle.ec_outside.specs.Fault.{HasRisen};
ghost use Rattle.ec_outside.specs.MemShelf.{next_call};
ghost use Rattle.ec_outside.specs.MemSink.{IsToFail};

use crate::fault::Failed;
use crate::sink::Sink;
use std::alloc::{AllocError, Global};
use std::marker::Model;

/// The bytes that a sink in memory has room for.
pub const ROOM: usize = 1_048_576;

/// Bytes in memory. Each call takes at most `piece` bytes, of what still fits; the calls whose numbers are listed fail.
#[derive(Drop)]
pub struct MemSink<'a> {
    taken: Vec<u8>,
    piece: usize,
    failing: &'a [u64],
    calls: u64,
    faults: u64,
}

impl<'a> Model for MemSink<'a> {
    ghost use Rattle.std.specs.Prelude.{◌<◌, ◌≤◌, length, vec_capacity};
    ghost use Rattle.ec_outside.specs.MemSink.{MemSinkState};
    ghost use Rattle.ec_outside.specs.declared.mem_sink.TheConstants.{ROOM};

    ghost Value = { MemSinkState };

    ghost view = { λ s. record { taken = s.taken.items; piece = s.piece; failing = s.failing.now; calls = s.calls; faults = s.faults } };

    ghost invariant = { λ s. (0 < s.piece) × (length s.taken.items ≤ ROOM) × (ROOM ≤ vec_capacity s.taken) };
}

impl<'a> Sink for MemSink<'a> {
    ghost tells = { λ _. ⊤ };

    ghost taken = { λ s. s.taken };

    ghost faults = { λ s. s.faults };

    /// Fails exactly where the call's number is listed, or no room is left for a piece that has bytes; else it
    /// takes as many bytes as a call moves and still fit. It takes no memory.
    fn put(&mut self, piece: &[u8]) -> Result<usize, Failed>
        // As every sink.
        ensures within { IfOk result (λ n. n ≤ length piece.now) }
        ensures some { IfOk result (λ n. 0 < length piece.now → 0 < n) }
        ensures takes { IfOk result (λ n. ⊤ → self.new.taken ≡ self.old.taken ++ take n piece.now) }
        ensures leaves { OnErr result (⊤ → self.new.taken ≡ self.old.taken) }
        ensures still_tells { ⊤ → ⊤ }
        ensures ok { OnOk result (self.new.faults ≡ self.old.faults) }
        ensures failed { OnErr result (HasRisen self.old.faults self.new.faults) }
        ensures never_falls { self.old.faults ≤ self.new.faults }

        // As this one.
        ensures cause { IsErr result ↔ IsToFail ROOM self.old piece.now }
        ensures count { IfOk result (λ n. n ≡ min (min (length piece.now) self.old.piece) (ROOM - length self.old.taken)) }
        ensures calls { self.new.calls ≡ next_call self.old.calls }
        ensures settings { (self.new.piece ≡ self.old.piece) × (self.new.failing ≡ self.old.failing) }
    {
        self.calls = self.calls.saturating_add(1);
        let Some(n) = self.count(piece) else {
            self.faults = self.faults.saturating_add(1);
            return Err(Failed);
        };
        match self.taken.extend_from_slice(&piece[..n]) {
            Ok(()) => Ok(n),
            Err(_) => unreachable!(),
        }
    }
}

impl<'a> MemSink<'a> {
    /// A sink that holds nothing and has had no call. It takes at most `piece` bytes in a call, and fails the
    /// calls whose numbers, from 1, are in `failing`.
    pub fn new(alloc: Global, piece: usize, failing: &'a [u64]) -> Result<MemSink<'a>, AllocError>
        requires { 0 < piece }
        ensures taken { IfOk result (λ s. s.taken ≡ []) }
        ensures piece { IfOk result (λ s. s.piece ≡ piece) }
        ensures failing { IfOk result (λ s. s.failing ≡ failing.now) }
        ensures calls { IfOk result (λ s. s.calls ≡ 0) }
        ensures faults { IfOk result (λ s. s.faults ≡ 0) }
    {
        Ok(MemSink {
            taken: Vec::with_capacity(alloc, ROOM)?,
            piece,
            failing,
            calls: 0,
            faults: 0,
        })
    }

    /// How many bytes of a piece the call under way takes, where it meets no fault.
    fn count(&self, piece: &[u8]) -> Option<usize>
        ensures some { IfSome result (λ n. n ≡ min (min (length piece.now) self.now.piece) (ROOM - length self.now.taken)) }
        ensures allowed { OnSome result (¬ Contains self.now.failing self.now.calls) }
        ensures moves { IfSome result (λ n. 0 < length piece.now → 0 < n) }
        ensures none { IsNone result →
            Contains self.now.failing self.now.calls ⊎ ((0 < length piece.now) × (length self.now.taken ≡ ROOM)) }
    {
        if self.failing.contains(&self.calls) {
            return None;
        }
        let n = piece.len().min(self.piece).min(ROOM - self.taken.len());
        if n == 0 && !piece.is_empty() {
            return None;
        }
        Some(n)
    }

    /// The bytes taken, in their order.
    pub fn taken(&self) -> &[u8]
        ensures { result.now ≡ self.now.taken }
    {
        self.taken.as_slice()
    }

    /// The count of faults.
    pub fn faults(&self) -> u64
        ensures { result ≡ self.now.faults }
    {
        self.faults
    }
}
