//! Arithmetic on sources.
ghost use Rattle.std.specs.Prelude.{◌≡◌, ◌++◌, OnOk};
ghost use Rattle.ec_generate.specs.Puts.{CanPutSource};
ghost use Rattle.rv_code.specs.Words as spec;

use crate::instructions::{A, B, on_number, on_registers, put};
use crate::numbers::{small, small_negative};
use crate::sources::{put_both, put_source, register_of};
use ec_base::list::Seq;
use ec_code::code::Arithmetic;
use ec_machine_code::step::Source;
use rv_isa::field::{Register, low_part};
use rv_isa::instr::{Immediate, Operation};
use std::alloc::AllocError;

/// Writes the words by which a register gets what an operation makes of two sources. The error is want of memory.
pub(crate) fn put_two(
    words: &mut Seq<u32>,
    operation: Operation,
    rd: Register,
    left: Source,
    right: Source,
) -> Result<(), AllocError>
    requires left { CanPutSource 10 left }
    requires right { CanPutSource 10 right }
    ensures { OnOk result (words.new ≡ words.old ++ spec.two_words operation rd.number left right) }
{
    put_both(words, left, right)?;
    put(
        words,
        on_registers(operation, rd, register_of(A, left), register_of(B, right)),
    )
}

/// The same of a source and a number. The error is want of memory.
pub(crate) fn put_one(
    words: &mut Seq<u32>,
    operation: Immediate,
    rd: Register,
    left: Source,
    n: u32,
) -> Result<(), AllocError>
    requires { CanPutSource 10 left }
    ensures { OnOk result (words.new ≡ words.old ++ spec.one_words operation rd.number left n) }
{
    put_source(words, A, left)?;
    put(
        words,
        on_number(operation, rd, register_of(A, left), low_part(n)),
    )
}

fn put_sum(
    words: &mut Seq<u32>,
    rd: Register,
    left: Source,
    right: Source,
) -> Result<(), AllocError>
    requires left { CanPutSource 10 left }
    requires right { CanPutSource 10 right }
    ensures { OnOk result (words.new ≡ words.old
        ++ spec.sum_by (spec.small left) (spec.small right) rd.number left right) }
{
    match small(right) {
        Some(n) => put_one(words, Immediate::Addi, rd, left, n),
        None => match small(left) {
            Some(n) => put_one(words, Immediate::Addi, rd, right, n),
            None => put_two(words, Operation::Add, rd, left, right),
        },
    }
}

pub(crate) fn put_difference(
    words: &mut Seq<u32>,
    rd: Register,
    left: Source,
    right: Source,
) -> Result<(), AllocError>
    requires left { CanPutSource 10 left }
    requires right { CanPutSource 10 right }
    ensures { OnOk result (words.new ≡ words.old ++ spec.difference_words rd.number left right) }
{
    match small_negative(right) {
        Some(n) => put_one(words, Immediate::Addi, rd, left, n),
        None => put_two(words, Operation::Sub, rd, left, right),
    }
}

/// Writes the words by which a register gets the result of arithmetic. The error is want of memory.
pub(crate) fn put_work(
    words: &mut Seq<u32>,
    how: Arithmetic,
    rd: Register,
    left: Source,
    right: Source,
) -> Result<(), AllocError>
    requires left { CanPutSource 10 left }
    requires right { CanPutSource 10 right }
    ensures { OnOk result (words.new ≡ words.old ++ spec.work_words how rd.number left right) }
{
    match how {
        Arithmetic::Sum => put_sum(words, rd, left, right),
        Arithmetic::Difference => put_difference(words, rd, left, right),
        Arithmetic::Product => put_two(words, Operation::Mul, rd, left, right),
        Arithmetic::Quotient => put_two(words, Operation::Div, rd, left, right),
        Arithmetic::Remainder => put_two(words, Operation::Rem, rd, left, right),
    }
}
