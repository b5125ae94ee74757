//! Sources of steps in their registers, and what goes into homes.
ghost use Rattle.std.specs.Prelude.{◌≡◌, ◌+◌, ◌*◌, ◌<◌, ◌^◌, ◌++◌, OnOk};
ghost use Rattle.ec_machine_code.specs.Frames.{block_words, slots};
ghost use Rattle.ec_generate.specs.Puts.{CanPutSource};
ghost use Rattle.ec_machine_code.specs.Homes.{IsWithin};
ghost use Rattle.mips_code.specs.Words as spec;

use crate::instructions::{A, FRAME, ZERO, lui, on_number, on_registers, put, put_load, store};
use crate::numbers::is_small;
use ec_base::list::Seq;
use ec_machine_code::homes::Home;
use ec_machine_code::step::Source;
use mips_isa::field::{Register, Sixteen, high_part, low_part};
use mips_isa::instr::{Immediate, Operation};
use std::alloc::AllocError;

/// Where the slots begin in a frame, in bytes.
const SLOTS: u32 = 112;

/// The register of the first home.
const FIRST_HOME: u32 = 16;

/// The register of a home.
fn home_register(k: u32) -> Register
    requires { k < 6 }
    ensures { result.number ≡ spec.home_register k }
{
    Register {
        number: FIRST_HOME + k,
    }
}

/// Where a slot lies in the frame.
fn slot_offset(n: u32) -> Sixteen
    requires { n < slots }
    ensures { result.bits ≡ spec.slot_offset n }
{
    Sixteen {
        bits: SLOTS + 4 * n,
    }
}

/// Where a word lies in its block.
pub(crate) fn word_offset(i: u32) -> Sixteen
    requires { i < block_words }
    ensures { result.bits ≡ 4 * i }
{
    Sixteen { bits: 4 * i }
}

/// Writes the words by which a register gets a number. The error is want of memory.
pub(crate) fn put_number(words: &mut Seq<u32>, r: Register, n: u32) -> Result<(), AllocError>
    ensures { OnOk result (words.new ≡ words.old ++ spec.number_words r.number n) }
{
    let low = low_part(n);
    if is_small(n) {
        put(words, on_number(Immediate::Addiu, r, ZERO, low))
    } else {
        put(words, lui(r, high_part(n)))?;
        put(words, on_number(Immediate::Addiu, r, r, low))
    }
}

/// The register that has a source, where scratch `r` has one that is in no register.
pub(crate) fn register_of(r: Register, source: Source) -> Register
    requires { CanPutSource 6 source }
    ensures { result.number ≡ spec.source_register r.number source }
{
    match source {
        Source::Home(Home::Slot(_)) => r,
        Source::Home(Home::Register(k)) => home_register(k),
        Source::Word(n) => { if n == 0 { ZERO } else { r } }
    }
}

/// Writes the words that bring a source to its register. The error is want of memory.
pub(crate) fn put_source(
    words: &mut Seq<u32>,
    r: Register,
    source: Source,
) -> Result<(), AllocError>
    requires { CanPutSource 6 source }
    ensures { OnOk result (words.new ≡ words.old ++ spec.source_words r.number source) }
{
    match source {
        Source::Home(Home::Slot(n)) => put_load(words, r, FRAME, slot_offset(n)),
        Source::Home(Home::Register(_)) => Ok(()),
        Source::Word(n) => {
            if n == 0 {
                Ok(())
            } else {
                put_number(words, r, n)
            }
        }
    }
}

/// Writes the words by which a register gets a source. The error is want of memory.
fn put_copied(words: &mut Seq<u32>, r: Register, from: Source) -> Result<(), AllocError>
    requires { CanPutSource 6 from }
    ensures { OnOk result (words.new ≡ words.old ++ spec.copied_words r.number from) }
{
    match from {
        Source::Home(Home::Slot(n)) => put_load(words, r, FRAME, slot_offset(n)),
        Source::Home(Home::Register(k)) => put(
            words,
            on_registers(Operation::Addu, r, home_register(k), ZERO),
        ),
        Source::Word(n) => put_number(words, r, n),
    }
}

/// Writes the words by which a word of a block gets a source. The error is want of memory.
pub(crate) fn put_stored(
    words: &mut Seq<u32>,
    base: Register,
    offset: Sixteen,
    from: Source,
) -> Result<(), AllocError>
    requires { CanPutSource 6 from }
    ensures { OnOk result (words.new ≡ words.old ++ spec.stored_words base.number offset.bits from) }
{
    put_source(words, A, from)?;
    put(words, store(register_of(A, from), base, offset))
}

/// Writes the words by which a home gets a source. The error is want of memory.
pub(crate) fn put_move(words: &mut Seq<u32>, into: Home, from: Source) -> Result<(), AllocError>
    requires into { IsWithin 6 slots into }
    requires from { CanPutSource 6 from }
    ensures { OnOk result (words.new ≡ words.old ++ spec.move_words into from) }
{
    match into {
        Home::Slot(n) => put_stored(words, FRAME, slot_offset(n), from),
        Home::Register(k) => put_copied(words, home_register(k), from),
    }
}

/// The register that gets what goes into a home.
pub(crate) fn target_of(into: Home) -> Register
    requires { IsWithin 6 slots into }
    ensures { result.number ≡ spec.target_register into }
{
    match into {
        Home::Slot(_) => A,
        Home::Register(k) => home_register(k),
    }
}

/// Writes the words that bring it from there into the home. The error is want of memory.
pub(crate) fn put_target(words: &mut Seq<u32>, into: Home) -> Result<(), AllocError>
    requires { IsWithin 6 slots into }
    ensures { OnOk result (words.new ≡ words.old ++ spec.target_words into) }
{
    match into {
        Home::Slot(n) => put(words, store(A, FRAME, slot_offset(n))),
        Home::Register(_) => Ok(()),
    }
}
