//! The words of each step.
ghost use Rattle.std.specs.Prelude.{◌≡◌, ◌<◌, ◌^◌, ◌++◌, OnOk};
ghost use Rattle.ec_generate.specs.Puts.{CanPut};
ghost use Rattle.mips_code.specs.Words as spec;

use crate::answers::put_answer;
use crate::instructions::{FRAME, OWN, lui, put, put_load};
use crate::sources::{put_move, put_stored, put_target, target_of, word_offset};
use crate::work::put_work;
use ec_base::list::Seq;
use ec_machine_code::step::Step;
use mips_isa::field::{Register, high_part, low_part};
use std::alloc::AllocError;

/// The word of a frame that is the own object's reference.
const ITSELF: u32 = 6;

/// Where the constants begin.
const CONSTANTS: u32 = 0x2000_0000;

/// Writes the words by which a register gets a constant. The error is want of memory.
fn put_constant(words: &mut Seq<u32>, r: Register, index: u32) -> Result<(), AllocError>
    requires { index < 2 ^ 20 }
    ensures { OnOk result (words.new ≡ words.old ++ spec.constant_words r.number index) }
{
    let at = CONSTANTS + 4 * index;
    put(words, lui(r, high_part(at)))?;
    put_load(words, r, r, low_part(at))
}

/// Writes the words of a step. The error is want of memory.
pub(crate) fn put_step(words: &mut Seq<u32>, step: Step) -> Result<(), AllocError>
    requires { CanPut 6 step }
    ensures { OnOk result (words.new ≡ words.old ++ spec.step_words step) }
{
    match step {
        Step::Move { into, from } => put_move(words, into, from),
        Step::Itself { into } => {
            put_load(words, target_of(into), FRAME, word_offset(ITSELF))?;
            put_target(words, into)
        }
        Step::Field { into, field } => {
            put_load(words, target_of(into), OWN, word_offset(field))?;
            put_target(words, into)
        }
        Step::SetField { field, from } => put_stored(words, OWN, word_offset(field), from),
        Step::Constant { into, index } => {
            put_constant(words, target_of(into), index)?;
            put_target(words, into)
        }
        Step::Work {
            how,
            into,
            left,
            right,
        } => {
            put_work(words, how, target_of(into), left, right)?;
            put_target(words, into)
        }
        Step::Decide { into, question } => {
            put_answer(words, target_of(into), question)?;
            put_target(words, into)
        }
    }
}
