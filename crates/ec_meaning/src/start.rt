//! How a program begins.
ghost use Rattle.std.specs.Prelude.{◌≡◌, ◌≤◌, ◌<◌, IfOk};
ghost use Rattle.ec_meaning.specs.Meaning as spec;
ghost use Rattle.ec_meaning.specs.Sources.{source_of};

use crate::classes::{classes_of, globals_of};
use crate::meaning::Meaning;
use crate::source::Program;
use crate::worlds::first_world;
use std::alloc::{AllocError, Global};

impl<'a> Meaning<'a> {
    /// The world in which a program begins on `n` nodes (1 to 64). The error is want of memory, or a table of numbers of
    /// 32 bits that is full.
    pub fn start(alloc: Global, program: Program<'a>, n: u32) -> Result<Meaning<'a>, AllocError>
        requires some { 0 < n }
        requires at_most { n ≤ 64 }
        ensures program { IfOk result (λ m. m.program ≡ program.entry) }
        ensures world { IfOk result (λ m. m.world ≡ spec.source_start (source_of program.entry) n) }
    {
        let classes = classes_of(alloc, &program)?;
        let globals = globals_of(alloc, &program)?;
        let world = first_world(alloc, n, classes, globals.as_slice())?;
        Ok(Meaning { program, world })
    }
}
