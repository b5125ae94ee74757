//! The machine code of an accepted text.
ghost use Rattle.std.specs.Prelude.{◌≡◌, ◌≤◌, ℕ, IfOk, length};
ghost use Rattle.ec_compile.specs.Texts.{IsOfText};
ghost use Rattle.ec_machine_code.specs.Once.{FaithfulOnce};
ghost use Rattle.ec_machine_code.specs.Frames.{slots};
ghost use Rattle.ec_machine_code.specs.Stops.{address_of};
ghost use Rattle.ec_generate.specs.Fits.{EachFits};
ghost use Rattle.ec_machine_code.specs.Fitted.{CanRest};
ghost use Rattle.ec_emission.specs.Lowered.{IsLowered};
ghost use Rattle.ec_meaning.specs.Sources.{source_of};
ghost use Rattle.ec_machine_code.specs.Speaks.{Speaks, words_end};
ghost use Rattle.ec_generate.specs.Addresses.{address_in};
ghost use Rattle.ec_generate.specs.Tables.{AreTablesOf, all_homes};

use crate::program::LoweredProgram;
use ec_generate::image::{Image, build};
use ec_generate::kind::Kind;
use ec_machine_code::laws::Target;
use ec_meaning::source::Program;
use std::alloc::{AllocError, Global};

/// What the program of a text is lowered to, and the image of this for a kind of machine.
#[derive(Drop)]
pub struct Compiled {
    pub program: LoweredProgram,
    pub image: Image,
}

/// Compiles the program of an accepted text for a kind, whose words do on a machine what the steps do that they are of. Between any two
/// stops the machine code does what the silent steps of the three-address code do, and behind each stop there are states from which it
/// is asked to. The error is want of memory.
pub fn compile<K: Kind, M: Target>(
    alloc: Global,
    kind: &K,
    program: &Program<'_>,
) -> Result<Compiled, AllocError>
    requires near { Speaks M.meaning K.vocabularies.near }
    requires middle { Speaks M.meaning K.vocabularies.middle }
    requires far { Speaks M.meaning K.vocabularies.far }
    requires homes { M.meaning.homes ≡ K.homes }
    requires rests { CanRest M.meaning }
    requires accepted { IsOfText (source_of program.now) }
    ensures lowered { IfOk result (λ made. IsLowered (source_of program.now) made.program) }
    ensures faithful { IfOk result
        (λ made. FaithfulOnce M.meaning made.program made.image.code (all_homes made.image.table.operations)) }
    ensures met { IfOk result
        (λ made. EachFits M.meaning made.program made.image.code (all_homes made.image.table.operations)) }
    ensures tables { IfOk result (λ made. AreTablesOf K.homes slots made.program made.image.table.operations) }
    ensures bound { IfOk result
        (λ made. (op n : ℕ) → address_in made.image.table.addresses op n ≡ address_of made.image.code op n) }
    ensures few { IfOk result (λ made. length made.image.code.words ≤ words_end) }
{
    let program = LoweredProgram::new(alloc, program)?;
    let image = build::<K, M>(alloc, kind, program.fitting())?;
    Ok(Compiled { program, image })
}
