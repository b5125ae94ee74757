//! The system's files as a shelf. It tells no content: what files hold no contract says.
ghost use Rattle.std.specs.Prelude.{◌≡◌, ℕ, List, None, map, IfOk};
ghost use Rattle.std.specs.Io.{ReadsAtMost};
ghost use Rattle.ec_outside.specs.Fault.{count_of};
ghost use Rattle.ec_outside.specs.SharedCounts.{count_of-shared};

use crate::fault::{Counts, Failed};
use crate::shelf::Shelf;
use std::alloc::{AllocError, Global};
use std::io::{Read, Seek, SeekFrom};
use std::marker::Model;
use std::rt::Files;
use std::{fs, io};

/// Files by their paths, with counts of faults for the kept ones among them.
#[derive(Drop)]
pub struct FileShelf<'a, R> {
    files: R,
    counts: Counts<'a>,
}

impl<'a, R> Model for FileShelf<'a, R> {
    ghost use Rattle.ec_outside.specs.Fault.{Tally};

    ghost Value = { Tally };

    ghost view = { λ s. s.counts };
}

impl<'a, R: Files> Shelf for FileShelf<'a, R> {
    ghost tells = { λ _. ⊥ };

    ghost content = { λ _ _. None };

    ghost kept = { λ counts. counts.names };

    ghost faults = { λ counts. count_of counts };

    /// Opens the file and reads once; any error is a fault of its name.
    fn read_at(&mut self, name: &str, from: u64, buf: &mut [u8]) -> Result<usize, Failed> {
        match read_file(&self.files, name, from, buf) {
            Ok(n) => Ok(n),
            Err(_) => {
                self.counts.raise(name);
                Err(Failed)
            }
        }
    }

    ghost shared = { λ counts. count_of-shared counts };
}

impl<'a, R: Files> FileShelf<'a, R> {
    /// A shelf that has met no fault; its kept names are these words.
    pub fn new(alloc: Global, files: R, words: &[&'a str]) -> Result<FileShelf<'a, R>, AllocError>
    where
        R: Drop,
        ensures kept { IfOk result (λ counts. counts.names ≡ map (λ word. word.now) words.now) }
        ensures faults { IfOk result (λ counts. (name : List ℕ) → count_of counts name ≡ 0) }
    {
        let names = Vec::from_slice(alloc, words)?;
        Ok(FileShelf {
            files,
            counts: Counts::new(alloc, names)?,
        })
    }

    /// The count of faults that speaks for a name.
    pub fn faults(&self, name: &str) -> u64
        ensures { result ≡ count_of self.now name.now }
    {
        self.counts.of(name)
    }
}

/// One read of a file from a place on.
fn read_file<R: Files>(files: &R, name: &str, from: u64, buf: &mut [u8]) -> io::Result<usize>
    ensures { ReadsAtMost result buf.new }
{
    let mut file = fs::open(files, name)?;
    file.seek(SeekFrom::Start(from))?;
    file.read(buf)
}
