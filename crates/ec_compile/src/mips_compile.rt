//! The MIPS I machine code of an accepted text.
ghost use Rattle.std.specs.Prelude.{◌≡◌, ◌≤◌, ℕ, IfOk, length};
ghost use Rattle.ec_compile.specs.Texts.{IsOfText};
ghost use Rattle.ec_machine_code.specs.Once.{FaithfulOnce};
ghost use Rattle.ec_machine_code.specs.Frames.{slots};
ghost use Rattle.ec_machine_code.specs.Stops.{address_of};
ghost use Rattle.ec_generate.specs.Fits.{EachFits};
ghost use Rattle.ec_emission.specs.Lowered.{IsLowered};
ghost use Rattle.ec_meaning.specs.Sources.{source_of};
ghost use Rattle.ec_machine_code.specs.Speaks.{words_end};
ghost use Rattle.ec_generate.specs.Addresses.{HasFew, address_in};
ghost use Rattle.ec_generate.specs.Tables.{AreTablesOf, all_homes};
ghost use Rattle.mips_machine.specs.declared.machine.MipsMachine.{MipsMachine};
ghost use Rattle.mips_code.specs.Meaning.{mips_meaning};
ghost use Rattle.mips_delay.specs.Fill.{KeepsFaithful};
ghost use Rattle.mips_delay.specs.Fillable.{HasNoLinks, HasNoneLeft};
ghost use Rattle.mips_delay.specs.Fitting.{KeepsFits};

use crate::compile::Compiled;
use crate::program::LoweredProgram;
use ec_generate::assign::assign;
use ec_generate::image::Image;
use ec_generate::kind::Kind;
use ec_generate::program::generate;
use ec_machine_code::code::Code;
use ec_machine_code::laws::Target;
use ec_meaning::source::Program;
use mips_code::mips::Mips;
use mips_delay::fill::fill;
use mips_delay::links::has_links;
use mips_waits::waits::drop_waits;
use std::alloc::{AllocError, Global};

/// How many slots a frame has.
const SLOTS: u32 = 100;

/// What a MIPS I machine means to code.
struct MipsMeaning;

impl Target for MipsMeaning {
    ghost State = { MipsMachine };

    ghost meaning = { mips_meaning };
}

/// Code without needless no-ops behind reads of HI and LO and behind loads, and with its delay slots filled, unless the target or the link
/// of some jump is a value. The error is want of memory.
fn tightened(alloc: Global, code: Code) -> Result<Code, AllocError>
    requires low { length code.words ≤ words_end }
    requires few { HasFew code }
    ensures keeps { IfOk result (λ new. KeepsFaithful code new) }
    ensures fits { IfOk result (λ new. KeepsFits code new) }
    ensures few_words { IfOk result (λ new. length new.words ≤ length code.words) }
    ensures few { IfOk result (λ new. HasFew new) }
    ensures none_left { IfOk result (λ new. HasNoLinks new.words → HasNoneLeft new.words) }
{
    if has_links(code.words.as_slice()) {
        return Ok(code);
    }
    let dropped = drop_waits(alloc, &code)?;
    let filled = fill(alloc, &dropped)?;
    Ok(filled)
}

/// Compiles the program of an accepted text for MIPS I. Between any two stops the machine code does what the silent steps of the
/// three-address code do, without a trap, and behind each stop there are states from which it does. No-ops behind reads of HI and LO and
/// behind loads that nothing needs are dropped, and delay slots filled. The error is want of memory.
pub fn compile_for_mips(alloc: Global, program: &Program<'_>) -> Result<Compiled, AllocError>
    requires accepted { IsOfText (source_of program.now) }
    ensures lowered { IfOk result (λ made. IsLowered (source_of program.now) made.program) }
    ensures faithful { IfOk result
        (λ made. FaithfulOnce mips_meaning made.program made.image.code (all_homes made.image.table.operations)) }
    ensures met { IfOk result
        (λ made. EachFits mips_meaning made.program made.image.code (all_homes made.image.table.operations)) }
    ensures tables { IfOk result (λ made. AreTablesOf 6 slots made.program made.image.table.operations) }
    ensures bound { IfOk result
        (λ made. (op n : ℕ) → address_in made.image.table.addresses op n ≡ address_of made.image.code op n) }
    ensures few { IfOk result (λ made. length made.image.code.words ≤ words_end) }
    ensures none_left { IfOk result (λ made. HasNoLinks made.image.code.words → HasNoneLeft made.image.code.words) }
{
    let program = LoweredProgram::new(alloc, program)?;
    let fitting = program.fitting();
    let mut table = assign(alloc, fitting, Mips.home_registers(), SLOTS)?;
    let generated = generate::<Mips, MipsMeaning>(alloc, &Mips, fitting, &table)?;
    let code = tightened(alloc, generated)?;
    table.bind(&code)?;
    let image = Image { code, table };
    Ok(Compiled { program, image })
}
