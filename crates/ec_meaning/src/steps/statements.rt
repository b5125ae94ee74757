//! Statements and blocks.
ghost use Rattle.std.specs.Prelude.{◌≡◌, ◌++◌, ◌∷◌, [], IfOk, OnOk};
ghost use Rattle.ec_core.specs.declared.Statement.{out-Statement};
ghost use Rattle.ec_meaning.specs.Running.{after, came};
ghost use Rattle.ec_meaning.specs.Meaning.{behind_loop};
ghost use Rattle.ec_meaning.specs.Programs as source;
ghost use Rattle.ec_meaning.specs.Sources.{source_of};
ghost use Rattle.ec_meaning.specs.Steps as spec;

use crate::copies::copy_block;
use crate::item::Item;
use crate::source::Program;
use crate::state::{Outcome, State, Whose};
use crate::steps::lists::do_all;
use crate::steps::places::declare;
use crate::todo::Todo;
use crate::types::number_of;
use ec_core::{Arm, At, Block, Expression, Place, Statement};
use ec_world::stop::Stop;
use sqlite_items::Items;
use std::alloc::AllocError;

/// A statement is done. The error is want of memory, or the number of a condition with more than 32 bits.
pub(crate) fn do_statement(
    x: Statement,
    program: &Program<'_>,
    whose: Whose,
    state: &mut State,
    todo: &mut Todo,
) -> Result<Outcome, AllocError>
    ensures { IfOk result
        (λ o. came o state.new todo.new ≡ after state.old todo.old
        (spec.do_statement (source_of program.now) whose state.old (out-Statement x))) }
{
    match x {
        Statement::Declare(n, None) => declare(n, program, whose, state, todo),
        Statement::Declare(n, Some(x)) => store_behind(x, Place::Variable(n), todo),
        Statement::Assign(place, x) => store_behind(x, place, todo),
        Statement::SetElement(vector, number, x, at) => {
            set_element(vector, number, x, program.line(at), todo)
        }
        Statement::Drop(x) => todo.then_two(Item::Evaluate(x), Item::Discard),
        Statement::Print(x) => rest_behind(x, Stop::Print, todo),
        Statement::If(arms, other) => todo.then(Item::Choose(arms, other)),
        Statement::Loop(block) => todo.then(Item::Again(block)),
        Statement::Exit(None) => leave_loop(todo),
        Statement::Exit(Some(x)) => todo.then_two(Item::Evaluate(x), Item::ExitIf),
        Statement::Return => end(todo),
        Statement::Assert(x, at) => todo.then_two(Item::Evaluate(x), Item::Require(at)),
        Statement::Move(x, to, at) => move_to(x, to, program.line(at), todo),
        Statement::Fix(x, to, at) => fix_at(x, to, program.line(at), todo),
        Statement::Refix(x, to, at) => refix_at(x, to, program.line(at), todo),
        Statement::Unfix(x, at) => unfix(x, program.line(at), todo),
        Statement::Wait(condition) => wait_for(condition, state),
        Statement::Signal(condition) => signal(condition, state),
    }
}

/// The process waits for a condition. The error is want of memory, or a number of more than 32 bits.
fn wait_for(condition: usize, state: &State) -> Result<Outcome, AllocError>
    ensures { IfOk result (λ o. o ≡ Outcome.Rests (Stop.Wait condition) []) }
{
    let condition = number_of(condition)?;
    Ok(state.rests(Stop::Wait { condition }))
}

/// The process signals a condition. The error is want of memory, or a number of more than 32 bits.
fn signal(condition: usize, state: &State) -> Result<Outcome, AllocError>
    ensures { IfOk result (λ o. o ≡ Outcome.Rests (Stop.Signal condition) []) }
{
    let condition = number_of(condition)?;
    Ok(state.rests(Stop::Signal { condition }))
}

/// An expression, whose value is then stored. The error is want of memory.
fn store_behind(x: Expression, place: Place, todo: &mut Todo) -> Result<Outcome, AllocError>
    ensures goes { IfOk result (λ o. o ≡ Outcome.Goes) }
    ensures next { OnOk result (todo.new ≡ Item.Evaluate x ∷ Item.Store place ∷ todo.old) }
{
    todo.then_two(Item::Evaluate(x), Item::Store(place))
}

/// An expression, and then a stop that takes its value. The error is want of memory.
fn rest_behind(x: Expression, stop: Stop, todo: &mut Todo) -> Result<Outcome, AllocError>
    ensures goes { IfOk result (λ o. o ≡ Outcome.Goes) }
    ensures next { OnOk result (todo.new ≡ Item.Evaluate x ∷ Item.Rest stop 1 ∷ todo.old) }
{
    todo.then_two(Item::Evaluate(x), Item::Rest { stop, takes: 1 })
}

/// Two expressions, and then a stop that takes their values. The error is want of memory.
fn rest_behind_two(
    x: Expression,
    to: Expression,
    stop: Stop,
    todo: &mut Todo,
) -> Result<Outcome, AllocError>
    ensures goes { IfOk result (λ o. o ≡ Outcome.Goes) }
    ensures next { OnOk result (todo.new ≡ Item.Evaluate x ∷ Item.Evaluate to ∷ Item.Rest stop 2 ∷ todo.old) }
{
    todo.push(Item::Rest { stop, takes: 2 })?;
    todo.then_two(Item::Evaluate(x), Item::Evaluate(to))
}

/// The error is want of memory.
fn set_element(
    vector: Expression,
    number: Expression,
    x: Expression,
    line: u32,
    todo: &mut Todo,
) -> Result<Outcome, AllocError>
    ensures goes { IfOk result (λ o. o ≡ Outcome.Goes) }
    ensures next { OnOk result
        (todo.new ≡ Item.Evaluate vector ∷ Item.Evaluate number ∷ Item.Evaluate x ∷ Item.Rest (Stop.Set line) 3 ∷ todo.old) }
{
    let stop = Stop::Set { line };
    todo.push(Item::Rest { stop, takes: 3 })?;
    todo.push(Item::Evaluate(x))?;
    todo.then_two(Item::Evaluate(vector), Item::Evaluate(number))
}

/// The innermost loop is left.
fn leave_loop(todo: &mut Todo) -> Result<Outcome, AllocError>
    ensures goes { IfOk result (λ o. o ≡ Outcome.Goes) }
    ensures left { OnOk result (todo.new ≡ behind_loop todo.old) }
{
    todo.leave_loop();
    Ok(Outcome::Goes)
}

/// Nothing is left to do but the end of the operation. The error is want of memory.
fn end(todo: &mut Todo) -> Result<Outcome, AllocError>
    ensures goes { IfOk result (λ o. o ≡ Outcome.Goes) }
    ensures left { OnOk result (todo.new ≡ Item.Leave ∷ []) }
{
    todo.keep_end()?;
    Ok(Outcome::Goes)
}

/// The error is want of memory.
fn move_to(x: Expression, to: Expression, line: u32, todo: &mut Todo) -> Result<Outcome, AllocError>
    ensures goes { IfOk result (λ o. o ≡ Outcome.Goes) }
    ensures next { OnOk result (todo.new ≡ Item.Evaluate x ∷ Item.Evaluate to ∷ Item.Rest (Stop.Move line) 2 ∷ todo.old) }
{
    rest_behind_two(x, to, Stop::Move { line }, todo)
}

/// The error is want of memory.
fn fix_at(x: Expression, to: Expression, line: u32, todo: &mut Todo) -> Result<Outcome, AllocError>
    ensures goes { IfOk result (λ o. o ≡ Outcome.Goes) }
    ensures next { OnOk result (todo.new ≡ Item.Evaluate x ∷ Item.Evaluate to ∷ Item.Rest (Stop.Fix line) 2 ∷ todo.old) }
{
    rest_behind_two(x, to, Stop::Fix { line }, todo)
}

/// The error is want of memory.
fn refix_at(
    x: Expression,
    to: Expression,
    line: u32,
    todo: &mut Todo,
) -> Result<Outcome, AllocError>
    ensures goes { IfOk result (λ o. o ≡ Outcome.Goes) }
    ensures next { OnOk result (todo.new ≡ Item.Evaluate x ∷ Item.Evaluate to ∷ Item.Rest (Stop.Refix line) 2 ∷ todo.old) }
{
    rest_behind_two(x, to, Stop::Refix { line }, todo)
}

/// The error is want of memory.
fn unfix(x: Expression, line: u32, todo: &mut Todo) -> Result<Outcome, AllocError>
    ensures goes { IfOk result (λ o. o ≡ Outcome.Goes) }
    ensures next { OnOk result (todo.new ≡ Item.Evaluate x ∷ Item.Rest (Stop.Unfix line) 1 ∷ todo.old) }
{
    rest_behind(x, Stop::Unfix { line }, todo)
}

/// The first arm whose condition holds. The error is want of memory.
pub(crate) fn choose(
    arms: Items<Arm>,
    other: Option<Block>,
    state: &State,
    todo: &mut Todo,
) -> Result<Outcome, AllocError>
    ensures { IfOk result (λ o. came o state.now todo.new ≡ after state.now todo.old (spec.choose state.now arms other)) }
{
    let mut arms = arms;
    if arms.is_empty() {
        return do_other(other, todo);
    }
    let arm = arms.remove(0);
    let next = Item::Branch(arm.block, arms, other);
    todo.then_two(Item::Evaluate(arm.condition), next)
}

/// The error is want of memory.
fn do_other(other: Option<Block>, todo: &mut Todo) -> Result<Outcome, AllocError>
    ensures goes { IfOk result (λ o. o ≡ Outcome.Goes) }
    ensures next { OnOk result (todo.new ≡ spec.block_if other ++ todo.old) }
{
    if let Some(block) = other {
        do_all(todo, block)?;
    }
    Ok(Outcome::Goes)
}

/// The loop rests before its next turn. The error is want of memory.
pub(crate) fn again(block: Block, state: &State, todo: &mut Todo) -> Result<Outcome, AllocError>
    ensures { IfOk result
        (λ o. came o state.now todo.new ≡ after state.now todo.old
        (spec.Rests Stop.LoopTop [] state.now (spec.block_items block ++ Item.Again block ∷ []))) }
{
    let turn = copy_block(state.held.allocator(), &block)?;
    todo.push(Item::Again(block))?;
    do_all(todo, turn)?;
    Ok(state.rests(Stop::LoopTop))
}
