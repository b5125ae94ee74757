//! Steps of three-address code.
ghost use Rattle.std.specs.Prelude.{◌≡◌, IfOk, option_map, slice_get};
ghost use Rattle.ec_code.specs.Steps as spec;
ghost use Rattle.ec_code.specs.declared.code.Op.{Op as AnOp};
ghost use Rattle.ec_stepping.specs.Stepping.{after, as_machine, came};
ghost use Rattle.ec_world.specs.declared.value.Value.TheVariants.{Int, Str};

use crate::arithmetic::computed;
use crate::machine::{Machine, Outcome};
use crate::reading::{copy_if, numbers, operand, operands};
use crate::testing::comes_out;
use ec_code::code::{Arithmetic, Op, Operand, StopRow, Test, Variable};
use ec_world::value::{Oid, Text, Value, copy_text};
use std::alloc::AllocError;

/// A variable gets a value, where there is one. The error is want of memory.
fn gives(m: &mut Machine, to: Variable, value: Option<Value>) -> Result<Outcome, AllocError>
    ensures { IfOk result
        (λ o. (s : AnOp) → came o s (as_machine m.new) ≡ after (as_machine m.old) (spec.gives (as_machine m.old) to value)) }
{
    match value {
        Some(value) => {
            m.set(to, value)?;
            Ok(Outcome::Goes { over: 0 })
        }
        None => Ok(Outcome::NoCase),
    }
}

/// A literal of the program, where it is there. The error is want of memory.
fn literal(literals: &[Text], index: u32) -> Result<Option<Value>, AllocError>
    ensures { IfOk result (λ v. v ≡ option_map Str (slice_get literals.now index)) }
{
    match literals.get(index as usize) {
        Some(text) => Ok(Some(Value::Str(copy_text(text)?))),
        None => Ok(None),
    }
}

/// A field of the own object, where it is there. The error is want of memory.
fn field(m: &Machine, own: Oid, n: u32) -> Result<Option<Value>, AllocError>
    ensures { IfOk result (λ v. v ≡ spec.own_field m.now.common own n) }
{
    match m.common.object(own) {
        Some(object) => copy_if(object.fields.get(n as usize)),
        None => Ok(None),
    }
}

/// A constant's value, where it is there. The error is want of memory.
fn constant(m: &Machine, index: u32) -> Result<Option<Value>, AllocError>
    ensures { IfOk result (λ v. v ≡ slice_get m.now.common.globals index) }
{
    copy_if(m.common.globals.get(index as usize))
}

/// The result of arithmetic, where there is one. The error is want of memory.
fn calculated(
    m: &Machine,
    how: Arithmetic,
    left: Operand,
    right: Operand,
) -> Result<Option<Value>, AllocError>
    ensures { IfOk result
        (λ v. v ≡ spec.on_two (spec.on_numbers (spec.computed how)) (spec.operand_at (as_machine m.now) left)
        (spec.operand_at (as_machine m.now) right)) }
{
    match numbers(m, left, right)? {
        Some((a, b)) => Ok(number_if(computed(how, a, b))),
        None => Ok(None),
    }
}

fn number_if(z: Option<i32>) -> Option<Value>
    ensures { result ≡ option_map Int z }
{
    match z {
        Some(z) => Some(Value::Int(z)),
        None => None,
    }
}

/// A field of the own object gets what is read. The error is want of memory.
fn store(m: &mut Machine, own: Oid, n: u32, from: Operand) -> Result<Outcome, AllocError>
    ensures { IfOk result
        (λ o. (s : AnOp) → came o s (as_machine m.new)
        ≡ after (as_machine m.old) (spec.stores (as_machine m.old) own n (spec.operand_at (as_machine m.old) from))) }
{
    match operand(m, from)? {
        Some(value) => {
            m.set_field(own, n as usize, value);
            Ok(Outcome::Goes { over: 0 })
        }
        None => Ok(Outcome::NoCase),
    }
}

/// A variable gets the truth of a test. The error is want of memory.
fn decide(m: &mut Machine, to: Variable, t: Test, wanted: bool) -> Result<Outcome, AllocError>
    ensures { IfOk result
        (λ o. (s : AnOp) → came o s (as_machine m.new)
        ≡ after (as_machine m.old) (spec.decides (as_machine m.old) to (spec.as_wanted wanted (spec.tested (as_machine m.old) t)))) }
{
    match comes_out(m, t, wanted)? {
        Some(b) => gives(m, to, Some(Value::Bool(b))),
        None => Ok(Outcome::NoCase),
    }
}

/// So many steps are passed over where a test comes out as wanted. The error is want of memory.
fn branch(m: &Machine, t: Test, wanted: bool, over: u32) -> Result<Outcome, AllocError>
    ensures { IfOk result
        (λ o. (s : AnOp) → came o s (as_machine m.now)
        ≡ after (as_machine m.now) (spec.passes (as_machine m.now) over (spec.as_wanted wanted (spec.tested (as_machine m.now) t)))) }
{
    match comes_out(m, t, wanted)? {
        Some(true) => Ok(Outcome::Goes { over }),
        Some(false) => Ok(Outcome::Goes { over: 0 }),
        None => Ok(Outcome::NoCase),
    }
}

/// The activation rests at a stop. The error is want of memory.
fn rest(m: &Machine, own: Oid, row: &StopRow) -> Result<Outcome, AllocError>
    ensures { IfOk result
        (λ o. came o (Op.Rest row.now) (as_machine m.now)
        ≡ after (as_machine m.now) (spec.rests row.now own (spec.variables_at (as_machine m.now) row.now.operands))) }
{
    match operands(m, row.on_itself, own, &row.operands)? {
        Some(operands) => Ok(Outcome::Rests { operands }),
        None => Ok(Outcome::NoCase),
    }
}

/// A step of an activation on an own object, with the program's literals. The error is want of memory.
pub(crate) fn step(
    literals: &[Text],
    own: Oid,
    m: &mut Machine,
    op: &Op,
) -> Result<Outcome, AllocError>
    ensures { IfOk result
        (λ o. came o op.now (as_machine m.new) ≡ after (as_machine m.old) (spec.act literals.now own (as_machine m.old) op.now)) }
{
    match op {
        Op::Copy { to, from } => gives(m, *to, operand(m, *from)?),
        Op::Literal { to, index } => gives(m, *to, literal(literals, *index)?),
        Op::Itself { to } => gives(m, *to, Some(Value::Ref(own))),
        Op::Field { to, field: n } => gives(m, *to, field(m, own, *n)?),
        Op::SetField { field: n, from } => store(m, own, *n, *from),
        Op::Constant { to, index } => gives(m, *to, constant(m, *index)?),
        Op::Compute {
            how,
            to,
            left,
            right,
        } => gives(m, *to, calculated(m, *how, *left, *right)?),
        Op::Decide { to, test, wanted } => decide(m, *to, *test, *wanted),
        Op::Branch { test, wanted, over } => branch(m, *test, *wanted, *over),
        Op::Jump { over } => Ok(Outcome::Goes { over: *over }),
        Op::Again { back } => Ok(Outcome::Loops { back: *back }),
        Op::Rest(row) => rest(m, own, row),
    }
}
