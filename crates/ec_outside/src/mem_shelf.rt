//! A shelf in memory that fails the calls it is told to: for tests, and for callers that have their files at hand.
ghost use Rattle.std.specs.Prelude.{◌≡◌, ℕ, ◌+◌, ◌-◌, ◌<◌, ◌≤◌, ◌↔◌, ◌⊎◌, ⊤, List, min, map, take, drop, length, IfOk, OnOk, OnErr};
ghost use Rattle.std.specs.Prelude.{OnSome, IfSome, IsNone, IsErr, Contains, option_copied};
ghost use Rattle.ec_outside.specs.Fault.{HasRisen, ShareCount, count_of};
ghost use Rattle.ec_outside.specs.MemShelf.{IsToFail, file_of, names_of, next_call};
ghost use Rattle.ec_outside.specs.Shelf.{ReadsFile};

use crate::fault::{Counts, Failed};
use crate::shelf::Shelf;
use std::alloc::{AllocError, Global};
use std::marker::Model;

/// A file of a shelf in memory.
#[derive(Clone, Copy)]
pub struct MemFile<'a> {
    /// Its name.
    pub name: &'a str,

    /// What it holds.
    pub bytes: &'a [u8],
}

/// Files in memory. Each call moves at most `piece` bytes; the calls whose numbers are listed fail.
#[derive(Drop)]
pub struct MemShelf<'a> {
    files: &'a [MemFile<'a>],
    piece: usize,
    failing: &'a [u64],
    calls: u64,
    counts: Counts<'a>,
}

impl<'a> Model for MemShelf<'a> {
    ghost use Rattle.std.specs.Prelude.{◌<◌};
    ghost use Rattle.ec_outside.specs.MemShelf.{MemShelfState};

    ghost Value = { MemShelfState };

    ghost view = { λ s. record { files = s.files.now; piece = s.piece; failing = s.failing.now; calls = s.calls; counts = s.counts } };

    ghost invariant = { λ s. 0 < s.piece };
}

impl<'a> Shelf for MemShelf<'a> {
    ghost tells = { λ _. ⊤ };

    ghost content = { λ s. file_of s.files };

    ghost kept = { λ s. s.counts.names };

    ghost faults = { λ s. count_of s.counts };

    /// Fails exactly where the call's number is listed or no file has the name; else it moves as many bytes as
    /// the file has left and the buffer and a call take.
    fn read_at(&mut self, name: &str, from: u64, buf: &mut [u8]) -> Result<usize, Failed>
        // As every shelf.
        ensures within { IfOk result (λ n. n ≤ length buf.new) }
        ensures read { IfOk result (λ n. ⊤ → ReadsFile (file_of self.old.files name.now) from buf.new n) }
        ensures still_tells { ⊤ → ⊤ }
        ensures content { file_of self.new.files ≡ file_of self.old.files }
        ensures kept { self.new.counts.names ≡ self.old.counts.names }
        ensures ok { OnOk result (count_of self.new.counts ≡ count_of self.old.counts) }
        ensures failed { OnErr result (HasRisen (count_of self.old.counts name.now) (count_of self.new.counts name.now)) }
        ensures others { (other : List ℕ) → ¬ ShareCount self.old.counts.names name.now other →
            count_of self.new.counts other ≡ count_of self.old.counts other }
        ensures never_falls { (other : List ℕ) → count_of self.old.counts other ≤ count_of self.new.counts other }

        // As this one.
        ensures cause { IsErr result ↔ IsToFail self.old name.now }
        ensures count { IfOk result (λ n. IfSome (file_of self.old.files name.now)
            (λ file. n ≡ min (min (length file - from) self.old.piece) (length buf.new))) }
        ensures calls { self.new.calls ≡ next_call self.old.calls }
        ensures settings { (self.new.files ≡ self.old.files) × (self.new.piece ≡ self.old.piece) × (self.new.failing ≡ self.old.failing) }
    {
        self.calls = self.calls.saturating_add(1);
        match self.answering(name) {
            Some(bytes) => Ok(copy_from(bytes, from, self.piece, buf)),
            None => {
                self.counts.raise(name);
                Err(Failed)
            }
        }
    }

    ghost use Rattle.ec_outside.specs.SharedCounts.{count_of-shared};

    ghost shared = { λ s. count_of-shared s.counts };
}

impl<'a> MemShelf<'a> {
    /// A shelf of these files that has had no call. It moves at most `piece` bytes in a call, and fails the
    /// calls whose numbers, from 1, are in `failing`. Its kept names are those of its files.
    pub fn new(
        alloc: Global,
        files: &'a [MemFile<'a>],
        piece: usize,
        failing: &'a [u64],
    ) -> Result<MemShelf<'a>, AllocError>
        requires { 0 < piece }
        ensures files { IfOk result (λ s. s.files ≡ files.now) }
        ensures piece { IfOk result (λ s. s.piece ≡ piece) }
        ensures failing { IfOk result (λ s. s.failing ≡ failing.now) }
        ensures calls { IfOk result (λ s. s.calls ≡ 0) }
        ensures kept { IfOk result (λ s. s.counts.names ≡ names_of files.now) }
        ensures faults { IfOk result (λ s. (name : List ℕ) → count_of s.counts name ≡ 0) }
    {
        let names = names(alloc, files)?;
        Ok(MemShelf {
            files,
            piece,
            failing,
            calls: 0,
            counts: Counts::new(alloc, names)?,
        })
    }

    /// The count of faults that speaks for a name.
    pub fn faults(&self, name: &str) -> u64
        ensures { result ≡ count_of self.now.counts name.now }
    {
        self.counts.of(name)
    }

    /// What the file of a name holds, where there is one and the call under way isn't listed.
    fn answering(&self, name: &str) -> Option<&'a [u8]>
        ensures some { OnSome result
            (¬ Contains self.now.failing self.now.calls × (option_copied result ≡ file_of self.now.files name.now)) }
        ensures none { IsNone result → Contains self.now.failing self.now.calls ⊎ IsNone (file_of self.now.files name.now) }
    {
        if self.failing.contains(&self.calls) {
            return None;
        }
        find(self.files, name)
    }
}

/// The names of files, in their order.
fn names<'a>(alloc: Global, files: &[MemFile<'a>]) -> Result<Vec<&'a str>, AllocError>
    ensures { IfOk result (λ v. v.items ≡ map (λ file. file.name) files.now) }
{
    files.iter().map(|file| file.name).collect(alloc)
}

/// What the first file of a name holds.
fn find<'a>(files: &[MemFile<'a>], name: &str) -> Option<&'a [u8]>
    ensures { option_copied result ≡ file_of files.now name.now }
{
    for file in files {
        if file.name == name {
            return Some(file.bytes);
        }
    }
    None
}

/// The bytes of a file from a place on, at most `most` of them, into a buffer; how many they are.
fn copy_from(bytes: &[u8], from: u64, most: usize, buf: &mut [u8]) -> usize
    ensures count { result ≡ min (min (length bytes.now - from) most) (length buf.new) }
    ensures bytes { take result buf.new ≡ take result (drop from bytes.now) }
{
    let at = usize::try_from(from).unwrap_or(usize::MAX).min(bytes.len());
    let rest = &bytes[at..];
    let n = rest.len().min(most).min(buf.len());
    buf[..n].copy_from_slice(&rest[..n]);
    n
}
