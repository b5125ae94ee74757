//! Programs of three-address code that are those of accepted programs.
ghost use Rattle.std.specs.Prelude.{◌≡◌, IfOk};
ghost use Rattle.ec_compile.specs.Texts.{IsOfText};
ghost use Rattle.ec_emission.specs.Lowered.{IsLowered};
ghost use Rattle.ec_meaning.specs.Sources.{source_of};

use ec_code::code::Parts;
use ec_generate::fitting::FittingProgram;
use ec_lowering::lower::lower;
use ec_meaning::source::Program;
use std::alloc::{AllocError, Global};
use std::marker::Model;

/// A program of three-address code to which the source of some accepted program is lowered. So it is well typed: code behind a
/// stop reaches a stop, what a step reads and gives has the static types of its variables, and what is live is known. And machine code can be
/// made of it.
#[derive(Drop)]
pub struct LoweredProgram {
    program: FittingProgram,
}

impl Model for LoweredProgram {
    ghost use Rattle.ec_code.specs.declared.code.Parts.{Parts};
    ghost use Rattle.ec_compile.specs.Programs.{IsOfAccepted};

    ghost Value = { Parts };

    ghost view = { λ p. p.program };

    ghost invariant = { λ p. IsOfAccepted p.program };
}

impl LoweredProgram {
    ghost use Rattle.ec_compile.specs.Programs.{IsOfAccepted, IsWellTyped};

    /// What the source of an accepted text is lowered to. The error is that of `lower`.
    pub fn new(alloc: Global, program: &Program<'_>) -> Result<LoweredProgram, AllocError>
        requires accepted { IsOfText (source_of program.now) }
        ensures of_it { IfOk result (IsLowered (source_of program.now)) }
    {
        let parts = lower(alloc, program)?;
        Ok(LoweredProgram {
            program: FittingProgram::new(parts),
        })
    }

    /// The parts, with what the type keeps of them.
    pub fn parts(&self) -> &Parts
        ensures parts { result.now ≡ self.now }
        ensures accepted { IsOfAccepted self.now }
        ensures well_typed { IsWellTyped self.now }
    {
        self.program.parts()
    }

    /// The program as one of which machine code can be made.
    pub fn fitting(&self) -> &FittingProgram
        ensures { result.now ≡ self.now }
    {
        &self.program
    }

    /// The parts alone, with what the type kept of them.
    pub fn into_parts(self) -> Parts
        ensures parts { result ≡ self }
        ensures accepted { IsOfAccepted result }
        ensures well_typed { IsWellTyped result }
    {
        self.program.into_parts()
    }
}
