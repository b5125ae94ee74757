//! Stops that are reached: with the values held last, and at the end of an operation.
ghost use Rattle.std.specs.Prelude.{◌≡◌, ◌-◌, ◌≤◌, ◌∷◌, [], IfOk, OnOk, length, drop, take, option_map, Some, None};
ghost use Rattle.ec_meaning.specs.Running.{after, came};
ghost use Rattle.ec_meaning.specs.Programs as source;
ghost use Rattle.ec_meaning.specs.Sources.{source_of};
ghost use Rattle.ec_meaning.specs.Steps as spec;

use crate::source::Program;
use crate::state::{Outcome, State, Whose};
use crate::todo::Todo;
use ec_base::list::Seq;
use ec_core::{Kind, Operation};
use ec_world::stop::Stop;
use ec_world::value::{Value, Values};
use std::alloc::AllocError;
use std::mem::replace;

/// The values from a place on, taken off. The error is want of memory.
fn split_off(values: &mut Values, at: usize) -> Result<Values, AllocError>
    requires { at ≤ length values.old }
    ensures taken { IfOk result (λ vs. vs ≡ drop at values.old) }
    ensures left { OnOk result (values.new ≡ take at values.old) }
{
    let alloc = values.allocator();
    let mut items = replace(values, Seq::new(alloc)).into_vec();
    let taken = items.split_off(at)?;
    *values = Seq::from_vec(items);
    Ok(Seq::from_vec(taken))
}

/// The activation rests at a stop that takes so many of the values held last. The error is want of memory.
pub(crate) fn rest_at(
    stop: Stop,
    takes: u32,
    state: &mut State,
    todo: &Todo,
) -> Result<Outcome, AllocError>
    ensures { IfOk result (λ o. came o state.new todo.now ≡ after state.old todo.now (spec.rest_at stop takes state.old)) }
{
    let count = state.held.len();
    if takes as usize > count {
        return Ok(Outcome::NoCase);
    }
    let operands = split_off(&mut state.held, count - takes as usize)?;
    Ok(Outcome::Rests { stop, operands })
}

/// The end of an operation of a name: it gives the value of its result, where it has one. The error is want of memory.
fn return_result(
    operation: &Operation,
    state: &mut State,
    todo: &Todo,
) -> Result<Outcome, AllocError>
    ensures { IfOk result (λ o. came o state.new todo.now ≡ after state.old todo.now (spec.leave_by Kind.Named operation.now state.old)) }
{
    let stop = Stop::Return { gives_self: false };
    if !operation.has_result {
        return Ok(state.rests(stop));
    }
    let Some(value) = state.variables.get(operation.parameters) else {
        return Ok(Outcome::NoCase);
    };
    let mut operands = Seq::new(state.held.allocator());
    operands.push(value.copy()?)?;
    Ok(Outcome::Rests { stop, operands })
}

/// The end of an operation. The error is want of memory.
pub(crate) fn leave(
    program: &Program<'_>,
    whose: Whose,
    state: &mut State,
    todo: &Todo,
) -> Result<Outcome, AllocError>
    ensures { IfOk result
        (λ o. came o state.new todo.now ≡ after state.old todo.now
        (spec.leave (source.operation_at (source_of program.now) whose.operation) state.old)) }
{
    let Some(operation) = program.operation(whose.operation) else {
        return Ok(state.rests(Stop::End));
    };
    match operation.kind {
        Kind::Named => return_result(operation, state, todo),
        Kind::Initial => Ok(state.rests(Stop::Return { gives_self: true })),
        Kind::Process => Ok(state.rests(Stop::End)),
    }
}
