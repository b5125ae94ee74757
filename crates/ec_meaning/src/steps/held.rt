//! What is done with the truth, or the value, that is held last.
ghost use Rattle.std.specs.Prelude.{◌≡◌, [], IfOk};
ghost use Rattle.ec_meaning.specs.Running.{after, came};
ghost use Rattle.ec_meaning.specs.Sources.{source_of};
ghost use Rattle.ec_meaning.specs.Steps as spec;

use crate::item::Item;
use crate::source::Program;
use crate::state::{Outcome, State};
use crate::steps::lists::do_all;
use crate::todo::Todo;
use ec_base::list::Seq;
use ec_core::{Arm, At, Block, Expression};
use ec_world::process::Cause;
use ec_world::stop::Stop;
use ec_world::value::Value;
use sqlite_items::Items;
use std::alloc::AllocError;

/// The right side of `and`, where the left one is true; a left side that is false stays held. The error is want of memory.
#[tactic(auto, using(crate::proofs::Held::held_again))]
pub(crate) fn and_then(
    x: Expression,
    state: &mut State,
    todo: &mut Todo,
) -> Result<Outcome, AllocError>
    ensures { IfOk result (λ o. came o state.new todo.new ≡ after state.old todo.old (spec.last state.old (spec.and_then state.old x))) }
{
    match state.pop_truth() {
        Some(true) => todo.then(Item::Evaluate(x)),
        Some(false) => state.gives(Value::Bool(false)),
        None => Ok(Outcome::NoCase),
    }
}

/// The right side of `or`, where the left one is false; a left side that is true stays held. The error is want of memory.
#[tactic(auto, using(crate::proofs::Held::held_again))]
pub(crate) fn or_else(
    x: Expression,
    state: &mut State,
    todo: &mut Todo,
) -> Result<Outcome, AllocError>
    ensures { IfOk result (λ o. came o state.new todo.new ≡ after state.old todo.old (spec.last state.old (spec.or_else state.old x))) }
{
    match state.pop_truth() {
        Some(true) => state.gives(Value::Bool(true)),
        Some(false) => todo.then(Item::Evaluate(x)),
        None => Ok(Outcome::NoCase),
    }
}

/// The negation of the truth held last. The error is want of memory.
pub(crate) fn invert(state: &mut State, todo: &Todo) -> Result<Outcome, AllocError>
    ensures { IfOk result (λ o. came o state.new todo.now ≡ after state.old todo.now (spec.last state.old spec.invert)) }
{
    match state.pop_truth() {
        Some(truth) => state.gives(Value::Bool(!truth)),
        None => Ok(Outcome::NoCase),
    }
}

/// The number held last, with the other sign; the least one stays. The error is want of memory.
pub(crate) fn negate(state: &mut State, todo: &Todo) -> Result<Outcome, AllocError>
    ensures { IfOk result (λ o. came o state.new todo.now ≡ after state.old todo.now (spec.last state.old spec.negate)) }
{
    match state.held.pop() {
        Some(Value::Int(z)) => state.gives(Value::Int(z.wrapping_neg())),
        _ => Ok(Outcome::NoCase),
    }
}

/// The block where the truth held last is true, else the other arms. The error is want of memory.
pub(crate) fn branch(
    block: Block,
    arms: Items<Arm>,
    other: Option<Block>,
    state: &mut State,
    todo: &mut Todo,
) -> Result<Outcome, AllocError>
    ensures { IfOk result (λ o. came o state.new todo.new ≡ after state.old todo.old (spec.last state.old (spec.branch block arms other))) }
{
    match state.pop_truth() {
        Some(true) => {
            do_all(todo, block)?;
            Ok(Outcome::Goes)
        }
        Some(false) => todo.then(Item::Choose(arms, other)),
        None => Ok(Outcome::NoCase),
    }
}

/// The innermost loop is left where the truth held last is true.
pub(crate) fn exit_if(state: &mut State, todo: &mut Todo) -> Result<Outcome, AllocError>
    ensures { IfOk result (λ o. came o state.new todo.new ≡ after state.old todo.old (spec.last state.old spec.exit_if)) }
{
    match state.pop_truth() {
        Some(true) => {
            todo.leave_loop();
            Ok(Outcome::Goes)
        }
        Some(false) => Ok(Outcome::Goes),
        None => Ok(Outcome::NoCase),
    }
}

/// The process fails where the truth held last is false.
pub(crate) fn require(
    at: At,
    program: &Program<'_>,
    state: &mut State,
    todo: &Todo,
) -> Result<Outcome, AllocError>
    ensures { IfOk result
        (λ o. came o state.new todo.now ≡ after state.old todo.now (spec.last state.old (spec.require (source_of program.now) at))) }
{
    match state.pop_truth() {
        Some(true) => Ok(Outcome::Goes),
        Some(false) => Ok(state.fails(Cause::FalseAssertion, program.line(at))),
        None => Ok(Outcome::NoCase),
    }
}

/// The values held are dropped.
pub(crate) fn discard(state: &mut State, todo: &Todo) -> Result<Outcome, AllocError>
    ensures { IfOk result (λ o. came o state.new todo.now ≡ after state.old todo.now (spec.Goes (spec.holding state.old []) [])) }
{
    state.held = Seq::new(state.held.allocator());
    Ok(Outcome::Goes)
}
