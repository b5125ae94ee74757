//! Programs of three-address code of which machine code can be made.
ghost use Rattle.std.specs.Prelude.{◌≡◌};
ghost use Rattle.ec_generate.specs.Fitting.{FitsMachines};

use ec_code::code::Parts;
use std::marker::Model;

/// A program of which machine code can be made, for any kind of machine: it is well typed, it is within the limits of code and frames, and
/// its numbers fit words.
#[derive(Drop)]
pub struct FittingProgram {
    parts: Parts,
}

impl Model for FittingProgram {
    ghost use Rattle.ec_code.specs.declared.code.Parts.{Parts};
    ghost use Rattle.ec_generate.specs.Fitting.{FitsMachines};

    ghost Value = { Parts };

    ghost view = { λ p. p.parts };

    ghost invariant = { λ p. FitsMachines p.parts };
}

impl FittingProgram {
    /// The program of these parts.
    pub fn new(parts: Parts) -> FittingProgram
        requires fits { FitsMachines parts }
        ensures parts { result ≡ parts }
    {
        FittingProgram { parts }
    }

    /// The parts, with what the type keeps of them.
    pub fn parts(&self) -> &Parts
        ensures parts { result.now ≡ self.now }
        ensures fits { FitsMachines result.now }
    {
        &self.parts
    }

    /// The parts alone, with what the type kept of them.
    pub fn into_parts(self) -> Parts
        ensures parts { result ≡ self }
        ensures fits { FitsMachines result }
    {
        self.parts
    }
}
