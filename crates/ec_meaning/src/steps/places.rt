//! Values at places.
ghost use Rattle.std.specs.Prelude.{◌≡◌, ◌+◌, IfOk, OnOk, IfSome, option_map, slice_set, []};
ghost use Rattle.ec_meaning.specs.Running.{after, came};
ghost use Rattle.ec_meaning.specs.Sources.{source_of};
ghost use Rattle.ec_meaning.specs.Steps as spec;
ghost use Rattle.ec_world.specs.Objects.{object_at};

use crate::source::Program;
use crate::state::{Outcome, State, Whose};
use crate::todo::Todo;
use crate::types::kind_of;
use ec_core::Place;
use ec_world::common::Common;
use ec_world::value::{Oid, OpNo, Value};
use std::alloc::AllocError;

/// How many names an object captures.
fn captured_of(program: &Program<'_>, common: &Common, own: Oid) -> usize
    ensures { result ≡ spec.captured_of (source_of program.now) (object_at common.now.objects own) }
{
    match common.object(own) {
        Some(object) => program.captured_by(object.class),
        None => 0,
    }
}

/// The number of a field of the own object, behind the names that it captures. Want of memory where it has more than 64
/// bits.
fn field_number(
    program: &Program<'_>,
    common: &Common,
    own: Oid,
    n: usize,
) -> Result<usize, AllocError>
    ensures { IfOk result (λ number. number ≡ spec.field_number (source_of program.now) common.now own n) }
{
    match captured_of(program, common, own).checked_add(n) {
        Some(number) => Ok(number),
        None => Err(AllocError),
    }
}

/// A field of an object.
fn field(common: &Common, own: Oid, n: usize) -> Option<&Value>
    ensures { option_map (λ v. v.now) result ≡ spec.field_if (object_at common.now.objects own) n }
{
    common.object(own)?.fields.get(n)
}

fn copy_if(value: Option<&Value>) -> Result<Option<Value>, AllocError>
    ensures { IfOk result (λ v. v ≡ option_map (λ x. x.now) value.entry) }
{
    match value {
        Some(value) => Ok(Some(value.copy()?)),
        None => Ok(None),
    }
}

/// The value at a place, where there is one. The error is want of memory, or a field whose number has more than 64 bits.
fn value_at(
    place: Place,
    program: &Program<'_>,
    own: Oid,
    state: &State,
) -> Result<Option<Value>, AllocError>
    ensures { IfOk result (λ v. v ≡ spec.value_at (source_of program.now) own state.now place) }
{
    match place {
        Place::Variable(n) => copy_if(state.variables.get(n)),
        Place::Captured(n) => copy_if(field(&state.common, own, n)),
        Place::Field(n) => {
            let number = field_number(program, &state.common, own, n)?;
            copy_if(field(&state.common, own, number))
        }
        Place::Constant(n) => copy_if(state.common.globals.get(program.constant_number(n))),
    }
}

/// The value at a place is held. The error is want of memory, or a field whose number has more than 64 bits.
pub(crate) fn read(
    place: Place,
    program: &Program<'_>,
    own: Oid,
    state: &mut State,
    todo: &Todo,
) -> Result<Outcome, AllocError>
    ensures { IfOk result
        (λ o. came o state.new todo.now ≡ after state.old todo.now
        (spec.gives_if state.old (spec.value_at (source_of program.now) own state.old place))) }
{
    match value_at(place, program, own, state)? {
        Some(value) => state.gives(value),
        None => Ok(Outcome::NoCase),
    }
}

/// A field of an object gets a value, where it is there.
fn set_field(common: &mut Common, own: Oid, n: usize, value: Value)
    ensures { common.new ≡ spec.with_field common.old own n value }
{
    if own > 0 && own as usize <= common.objects.len() {
        let fields = &mut common.objects.at_mut(own as usize - 1).fields;
        if n < fields.len() {
            fields.set(n, value);
        }
    }
}

fn set_variable(state: &mut State, n: usize, value: Value)
    ensures { state.new ≡ record state.old { variables = slice_set state.old.variables n value } }
{
    if n < state.variables.len() {
        state.variables.set(n, value);
    }
}

/// A value at a place, where an operation may store one. The error is a field whose number has more than 64 bits.
fn put(
    place: Place,
    value: Value,
    program: &Program<'_>,
    own: Oid,
    state: &mut State,
) -> Result<(), AllocError>
    ensures { OnOk result (state.new ≡ spec.stored (source_of program.now) own state.old place value) }
{
    match place {
        Place::Variable(n) => set_variable(state, n, value),
        Place::Field(n) => {
            let number = field_number(program, &state.common, own, n)?;
            set_field(&mut state.common, own, number, value);
        }
        Place::Captured(_) | Place::Constant(_) => {}
    }
    Ok(())
}

/// The value held last is stored. The error is a field whose number has more than 64 bits.
pub(crate) fn store(
    place: Place,
    program: &Program<'_>,
    whose: Whose,
    state: &mut State,
    todo: &Todo,
) -> Result<Outcome, AllocError>
    ensures { IfOk result
        (λ o. came o state.new todo.now ≡ after state.old todo.now
        (spec.last state.old (spec.store (source_of program.now) whose.own place))) }
{
    match state.held.pop() {
        Some(value) => {
            put(place, value, program, whose.own, state)?;
            Ok(Outcome::Goes)
        }
        None => Ok(Outcome::NoCase),
    }
}

/// The default of a variable of an operation.
fn default_at(program: &Program<'_>, op: OpNo, n: usize, state: &State) -> Value
    ensures { result ≡ spec.default_at (source_of program.now) op n }
{
    let Some(operation) = program.operation(op) else {
        return Value::Nil;
    };
    match operation.variables.get(n) {
        Some(of) => kind_of(*of).default_value(state.held.allocator()),
        None => Value::Nil,
    }
}

/// A variable begins with the default of its type.
pub(crate) fn declare(
    n: usize,
    program: &Program<'_>,
    whose: Whose,
    state: &mut State,
    todo: &Todo,
) -> Result<Outcome, AllocError>
    ensures { IfOk result
        (λ o. came o state.new todo.now ≡ after state.old todo.now
        (spec.Goes
        (spec.stored (source_of program.now) whose.own state.old (Place.Variable n)
        (spec.default_at (source_of program.now) whose.operation n)) [])) }
{
    let value = default_at(program, whose.operation, n, state);
    set_variable(state, n, value);
    Ok(Outcome::Goes)
}
