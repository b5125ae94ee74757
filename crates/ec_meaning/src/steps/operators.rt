//! Products and sums of the two values that are held last.
ghost use Rattle.std.specs.Prelude.{◌≡◌, IfOk, true, false};
ghost use Rattle.ec_meaning.specs.Running.{after, came};
ghost use Rattle.ec_meaning.specs.Sources.{source_of};
ghost use Rattle.ec_meaning.specs.Steps as spec;

use crate::item::Item;
use crate::source::Program;
use crate::state::{Outcome, State};
use crate::todo::Todo;
use ec_ast::{Additive, Multiplicative};
use ec_core::At;
use ec_world::process::Cause;
use ec_world::stop::Stop;
use ec_world::value::Value;
use std::alloc::AllocError;

/// Whether an operator divides.
fn divides(op: Multiplicative) -> bool
    ensures { result ≡ spec.divides op }
{
    match op {
        Multiplicative::Times => false,
        Multiplicative::Over | Multiplicative::Remainder => true,
    }
}

/// A product, quotient or remainder. It wraps.
fn calculated(op: Multiplicative, a: i32, b: i32) -> i32
    requires { spec.divides op ≡ true → spec.is_zero b ≡ false }
    ensures { result ≡ spec.calculated op a b }
{
    match op {
        Multiplicative::Times => a.wrapping_mul(b),
        Multiplicative::Over => a.wrapping_div(b),
        Multiplicative::Remainder => a.wrapping_rem(b),
    }
}

/// A product, quotient or remainder of the two numbers held last; the process fails where the divisor is 0. The error is
/// want of memory.
pub(crate) fn calculate(
    op: Multiplicative,
    at: At,
    program: &Program<'_>,
    state: &mut State,
    todo: &Todo,
) -> Result<Outcome, AllocError>
    ensures { IfOk result
        (λ o. came o state.new todo.now ≡ after state.old todo.now
        (spec.last_two state.old (spec.calculate (source_of program.now) op at))) }
{
    let Some((a, b)) = state.pop_numbers() else {
        return Ok(Outcome::NoCase);
    };
    if divides(op) && b == 0 {
        return Ok(state.fails(Cause::ZeroDivisor, program.line(at)));
    }
    state.gives(Value::Int(calculated(op, a, b)))
}

/// A sum or a difference of the two numbers held last, or the two texts behind one another. The error is want of memory.
pub(crate) fn join(
    op: Additive,
    at: At,
    program: &Program<'_>,
    state: &mut State,
    todo: &mut Todo,
) -> Result<Outcome, AllocError>
    ensures { IfOk result
        (λ o. came o state.new todo.new ≡ after state.old todo.old
        (spec.last_two state.old (spec.join (source_of program.now) op at state.old))) }
{
    match op {
        Additive::Concat => concat(at, program, state, todo),
        Additive::Plus => plus(at, program, state, todo),
        Additive::Minus => minus(at, program, state, todo),
    }
}

/// Two values stay held, and their stop is next. The error is want of memory.
#[tactic(auto, using(crate::proofs::Held::two_again))]
fn concat(
    at: At,
    program: &Program<'_>,
    state: &mut State,
    todo: &mut Todo,
) -> Result<Outcome, AllocError>
    ensures { IfOk result
        (λ o. came o state.new todo.new ≡ after state.old todo.old
        (spec.last_two state.old (spec.join (source_of program.now) Additive.Concat at state.old))) }
{
    let Some((under, last)) = state.pop_two() else {
        return Ok(Outcome::NoCase);
    };
    state.hold_two(under, last)?;
    let stop = Stop::Concat {
        line: program.line(at),
    };
    todo.then(Item::Rest { stop, takes: 2 })
}

/// A sum. It wraps.
fn plus(
    at: At,
    program: &Program<'_>,
    state: &mut State,
    todo: &Todo,
) -> Result<Outcome, AllocError>
    ensures { IfOk result
        (λ o. came o state.new todo.now ≡ after state.old todo.now
        (spec.last_two state.old (spec.join (source_of program.now) Additive.Plus at state.old))) }
{
    match state.pop_numbers() {
        Some((a, b)) => state.gives(Value::Int(a.wrapping_add(b))),
        None => Ok(Outcome::NoCase),
    }
}

/// A difference. It wraps.
fn minus(
    at: At,
    program: &Program<'_>,
    state: &mut State,
    todo: &Todo,
) -> Result<Outcome, AllocError>
    ensures { IfOk result
        (λ o. came o state.new todo.now ≡ after state.old todo.now
        (spec.last_two state.old (spec.join (source_of program.now) Additive.Minus at state.old))) }
{
    match state.pop_numbers() {
        Some((a, b)) => state.gives(Value::Int(a.wrapping_sub(b))),
        None => Ok(Outcome::NoCase),
    }
}
