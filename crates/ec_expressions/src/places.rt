//! Values that are fetched from their places, and literals.
ghost use Rattle.std.specs.Prelude.{◌≡◌, ◌++◌, ◌∷◌, OnOk};
ghost use Rattle.ec_expressions.specs.Emitting as emitting;

use crate::backward::Backward;
use crate::emitter::Emitter;
use crate::rows::further;
use ec_code::code::{Op, Operand, Variable};
use ec_core::Place;
use ec_meaning::types::number_of;
use std::alloc::AllocError;

/// What is read goes into a temporary. The error is want of memory.
pub(crate) fn copy(from: Operand, h: u32, out: &mut Backward) -> Result<(), AllocError>
    ensures { OnOk result (out.new ≡ emitting.copies from h ++ out.old) }
{
    let to = Variable::Temporary(h);
    out.before(Op::Copy { to, from })
}

impl<'a> Emitter<'a> {
    /// A literal goes into a variable. The error is want of memory, or more literals than 32 bits can count.
    pub fn literal(&self, text: &[u8], to: Variable, out: &mut Backward) -> Result<(), AllocError>
        ensures { OnOk result (out.new ≡ Op.Literal to (emitting.literal_by self.now text.now) ∷ out.old) }
    {
        let index = number_of(self.literals.place(text)?)?;
        out.before(Op::Literal { to, index })
    }

    /// The values of places, each one above the other. The error is want of memory, or a number of more than 32 bits.
    pub(crate) fn fetch_all(
        &self,
        places: &[Place],
        h: u32,
        out: &mut Backward,
    ) -> Result<(), AllocError>
        ensures { OnOk result (out.new ≡ emitting.fetch_onto self.now h 0 places.now out.old) }
    {
        for n in (0..places.len()).rev() {
            let to = Variable::Temporary(further(h, number_of(n)?)?);
            out.before(self.fetch(to, places[n])?)?;
        }
        Ok(())
    }
}
