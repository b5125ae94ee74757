//! The code behind a stop whose action is done.
ghost use Rattle.std.specs.Prelude.{◌≡◌, ◌++◌, ◌∷◌, [], Some, None, IfOk, OnOk, drop};
ghost use Rattle.ec_meaning.specs.Meaning as spec;
ghost use Rattle.ec_meaning.specs.Running.{items_from, settled_at, variables_from};
ghost use Rattle.ec_meaning.specs.Sources.{source_of};
ghost use Rattle.ec_meaning.specs.Steps.{block_items};

use crate::activation::SourceActivation;
use crate::copies::{copy_block, copy_expression};
use crate::item::Item;
use crate::settle::{AtStop, settle};
use crate::source::Program;
use crate::state::{State, Whose};
use crate::steps::lists::{count_of, do_all};
use crate::todo::Todo;
use crate::types::kind_of;
use ec_base::list::Seq;
use ec_core::{Constant, Operation};
use ec_types::conform::static_type::StaticType;
use ec_world::common::Common;
use ec_world::stop::Stop;
use ec_world::value::{OpNo, Values};
use std::alloc::{AllocError, Global};
use std::mem::replace;

/// Silent steps of an activation from behind a stop to the next one, with what the world has then. The error is that of a
/// step, or more than 2^32 constants.
pub(crate) fn go_on(
    program: &Program<'_>,
    common: Common,
    a: SourceActivation,
) -> Result<(Common, SourceActivation), AllocError>
    ensures { IfOk result (λ r. r ≡ spec.source_silent (source_of program.now) common a) }
{
    let alloc = a.held.allocator();
    let whose = Whose {
        operation: a.operation,
        own: a.own,
    };
    let mut a = a;
    let variables = replace(&mut a.variables, Seq::new(alloc));
    let items = replace(&mut a.items, Seq::new(alloc));
    let held = replace(&mut a.held, Seq::new(alloc));
    let variables = variables_behind(program, a.operation, a.at_entry, variables)?;
    let mut todo = items_behind(alloc, program, a.operation, a.at_entry, items)?;
    let mut state = State {
        common,
        variables,
        held,
    };
    let reached = settle(program, whose, &mut state, &mut todo)?;
    Ok(resting(a, reached, state, todo))
}

/// An activation that rests at a stop, or where nothing is left to do, with what the world has then.
fn resting(
    a: SourceActivation,
    reached: Option<AtStop>,
    state: State,
    todo: Todo,
) -> (Common, SourceActivation)
    ensures { result ≡ spec.resting a (settled_at reached state todo) }
{
    match reached {
        Some(at) => (
            state.common,
            resting_at(a, at, state.variables, state.held, todo),
        ),
        None => (state.common, stuck(a)),
    }
}

/// An activation that rests at a stop.
fn resting_at(
    a: SourceActivation,
    at: AtStop,
    variables: Values,
    held: Values,
    todo: Todo,
) -> SourceActivation
    ensures { result ≡ spec.rested a
        (Some (record { action = at.stop; operands = at.operands; variables = variables; held = held; items = todo })) }
{
    SourceActivation {
        operation: a.operation,
        own: a.own,
        stop: at.stop,
        operands: at.operands,
        pending: true,
        at_entry: false,
        variables,
        held,
        items: todo.into_items(),
    }
}

/// An activation where nothing is left to do.
fn stuck(a: SourceActivation) -> SourceActivation
    ensures { result ≡ spec.rested a None }
{
    let alloc = a.held.allocator();
    SourceActivation {
        operation: a.operation,
        own: a.own,
        stop: a.stop,
        operands: a.operands,
        pending: false,
        at_entry: false,
        variables: Seq::new(alloc),
        held: Seq::new(alloc),
        items: Seq::new(alloc),
    }
}

/// The variables behind a stop: at the entry those that aren't arguments get the defaults of their types. The error is want
/// of memory.
fn variables_behind(
    program: &Program<'_>,
    operation: OpNo,
    at_entry: bool,
    variables: Values,
) -> Result<Values, AllocError>
    ensures { IfOk result (λ vs. vs ≡ variables_from (source_of program.now) operation at_entry variables) }
{
    let mut variables = variables;
    if at_entry {
        if let Some(operation) = program.operation(operation) {
            let from = variables.len();
            push_defaults(&mut variables, operation.variables.as_slice(), from)?;
        }
    }
    Ok(variables)
}

/// The defaults of the types from one on, behind the values that there are. The error is want of memory.
fn push_defaults(values: &mut Values, types: &[StaticType], from: usize) -> Result<(), AllocError>
    ensures { OnOk result (values.new ≡ values.old ++ spec.defaults (drop from types.now)) }
{
    let alloc = values.allocator();
    for i in from..types.len() {
        values.push(kind_of(types[i]).default_value(alloc))?;
    }
    Ok(())
}

/// What is to be done behind a stop: at the entry all of the operation. The error is want of memory, or more than 2^32
/// constants.
fn items_behind(
    alloc: Global,
    program: &Program<'_>,
    operation: OpNo,
    at_entry: bool,
    items: Seq<Item>,
) -> Result<Todo, AllocError>
    ensures { IfOk result (λ todo. todo ≡ items_from (source_of program.now) operation at_entry items) }
{
    if !at_entry {
        return Ok(Todo::from_items(items));
    }
    match program.operation(operation) {
        Some(operation) => operation_items(alloc, operation),
        None => constant_items(alloc, program.core().constants.as_slice()),
    }
}

/// All of an operation, and its end. The error is want of memory.
fn operation_items(alloc: Global, operation: &Operation) -> Result<Todo, AllocError>
    ensures { IfOk result (λ todo. todo ≡ block_items operation.now.block ++ Item.Leave ∷ []) }
{
    let mut todo = Todo::from_items(Seq::new(alloc));
    todo.push(Item::Leave)?;
    do_all(&mut todo, copy_block(alloc, &operation.block)?)?;
    Ok(todo)
}

/// The constants get their values, and the process ends. The error is want of memory, or more than 2^32 constants.
fn constant_items(alloc: Global, constants: &[Constant]) -> Result<Todo, AllocError>
    ensures { IfOk result (λ todo. todo ≡ spec.constant_items 0 constants.now) }
{
    let mut todo = Todo::from_items(Seq::new(alloc));
    todo.push(Item::Rest {
        stop: Stop::End,
        takes: 0,
    })?;
    for n in (0..constants.len()).rev() {
        let index = count_of(n)?;
        let value = copy_expression(alloc, &constants[n].value)?;
        todo.push(Item::Rest {
            stop: Stop::Global { index },
            takes: 1,
        })?;
        todo.push(Item::Evaluate(value))?;
    }
    Ok(todo)
}
