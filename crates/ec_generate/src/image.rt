//! The image of a program.
ghost use Rattle.std.specs.Prelude.{◌≡◌, ◌≤◌, ℕ, IfOk, length};
ghost use Rattle.ec_code.specs.Fine.{Fine};
ghost use Rattle.ec_code.specs.Typing.{Declared};
ghost use Rattle.ec_machine_code.specs.Once.{FaithfulOnce};
ghost use Rattle.ec_machine_code.specs.Frames.{slots};
ghost use Rattle.ec_machine_code.specs.Stops.{address_of};
ghost use Rattle.ec_generate.specs.Fits.{EachFits};
ghost use Rattle.ec_machine_code.specs.Fitted.{CanRest, HasFew};
ghost use Rattle.ec_machine_code.specs.Speaks.{Speaks, words_end};
ghost use Rattle.ec_generate.specs.Addresses.{address_in};
ghost use Rattle.ec_generate.specs.Tables.{AreTablesOf, all_homes};

use crate::assign::assign;
use crate::fitting::FittingProgram;
use crate::kind::Kind;
use crate::program::generate;
use crate::table::StopTable;
use ec_machine_code::code::Code;
use ec_machine_code::laws::Target;
use std::alloc::{AllocError, Global};

/// How many slots a frame has.
const SLOTS: u32 = 100;

/// The code of a program for a kind of machine, and its stop table, which is bound to the code.
#[derive(Drop)]
pub struct Image {
    pub code: Code,
    pub table: StopTable,
}

/// The image of a program for a kind, whose words do on a machine what the steps do that they are of. The code does between
/// any two stops what the program's silent steps do, and passes no word twice. The error is want of memory.
pub fn build<K: Kind, M: Target>(
    alloc: Global,
    kind: &K,
    program: &FittingProgram,
) -> Result<Image, AllocError>
    requires near { Speaks M.meaning K.vocabularies.near }
    requires middle { Speaks M.meaning K.vocabularies.middle }
    requires far { Speaks M.meaning K.vocabularies.far }
    requires homes { M.meaning.homes ≡ K.homes }
    ensures faithful { IfOk result
        (λ image. FaithfulOnce M.meaning program.now image.code (all_homes image.table.operations)) }
    ensures met { IfOk result (λ image. (d : Declared) → Fine d program.now → CanRest M.meaning → HasFew d program.now →
        EachFits M.meaning program.now image.code (all_homes image.table.operations)) }
    ensures tables { IfOk result (λ image. AreTablesOf K.homes slots program.now image.table.operations) }
    ensures bound { IfOk result
        (λ image. (op n : ℕ) → address_in image.table.addresses op n ≡ address_of image.code op n) }
    ensures few { IfOk result (λ image. length image.code.words ≤ words_end) }
{
    let mut table = assign(alloc, program, kind.home_registers(), SLOTS)?;
    let code = generate::<K, M>(alloc, kind, program, &table)?;
    table.bind(&code)?;
    Ok(Image { code, table })
}
