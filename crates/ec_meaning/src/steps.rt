//! Silent steps: a case on the first thing that is still to do.
ghost use Rattle.std.specs.Prelude.{◌≡◌, IfOk};
ghost use Rattle.ec_meaning.specs.Running.{after, came};
ghost use Rattle.ec_meaning.specs.Sources.{source_of};
ghost use Rattle.ec_meaning.specs.Steps as spec;

mod comparisons;
mod expressions;
mod held;
mod links;
pub(crate) mod lists;
mod operators;
mod places;
mod statements;
mod stops;

use crate::item::Item;
use crate::source::Program;
use crate::state::{Outcome, State, Whose};
use crate::todo::Todo;
use comparisons::compare;
use expressions::{add, evaluate, multiply};
use held::{and_then, branch, discard, exit_if, invert, negate, or_else, require};
use links::follow;
use operators::{calculate, join};
use places::store;
use statements::{again, choose, do_statement};
use std::alloc::AllocError;
use stops::{leave, rest_at};

/// One silent step: an item is done, behind which the others are to be done. The error is want of memory, a number of the
/// text that has more than 31 bits, a number of a type or a count of operands that has more than 32, or a field whose
/// number has more than 64.
pub(crate) fn step(
    program: &Program<'_>,
    whose: Whose,
    item: Item,
    state: &mut State,
    todo: &mut Todo,
) -> Result<Outcome, AllocError>
    ensures { IfOk result
        (λ o. came o state.new todo.new ≡ after state.old todo.old (spec.step (source_of program.now) whose state.old item)) }
{
    match item {
        Item::Do(x) => do_statement(x, program, whose, state, todo),
        Item::Evaluate(x) => evaluate(x, program, whose, state, todo),
        Item::Follow(link) => follow(link, program, state, todo),
        Item::Multiply(factor) => multiply(factor, state, todo),
        Item::Add(addend) => add(addend, state, todo),
        Item::AndThen(x) => and_then(x, state, todo),
        Item::OrElse(x) => or_else(x, state, todo),
        Item::Choose(arms, other) => choose(arms, other, state, todo),
        Item::Again(block) => again(block, state, todo),
        Item::Rest { stop, takes } => rest_at(stop, takes, state, todo),
        Item::Calculate(op, at) => calculate(op, at, program, state, todo),
        Item::Join(op, at) => join(op, at, program, state, todo),
        Item::Negate => negate(state, todo),
        Item::Invert => invert(state, todo),
        Item::Compare(op) => compare(op, state, todo),
        Item::Branch(block, arms, other) => branch(block, arms, other, state, todo),
        Item::ExitIf => exit_if(state, todo),
        Item::Store(place) => store(place, program, whose, state, todo),
        Item::Discard => discard(state, todo),
        Item::Require(at) => require(at, program, state, todo),
        Item::Leave => leave(program, whose, state, todo),
    }
}
