//! What a step reads.
ghost use Rattle.std.specs.Prelude.{◌≡◌, ◌++◌, Some, IfOk, option_map};
ghost use Rattle.ec_code.specs.Steps as spec;
ghost use Rattle.ec_stepping.specs.Stepping.{as_machine, number_in, numbers_in};

use crate::machine::Machine;
use ec_base::list::Seq;
use ec_code::code::{Operand, Variable};
use ec_code::steps::with_itself;
use ec_world::value::{Oid, Value, Values};
use std::alloc::AllocError;

/// A variable's value, where it is there.
fn variable(m: &Machine, x: Variable) -> Option<&Value>
    ensures { option_map (λ v. v.now) result ≡ spec.variable_at (as_machine m.now) x }
{
    match x {
        Variable::Named(n) => m.variables.get(n as usize),
        Variable::Temporary(d) => m.temporaries.get(d as usize),
    }
}

/// The error is want of memory.
pub(crate) fn copy_if(value: Option<&Value>) -> Result<Option<Value>, AllocError>
    ensures { IfOk result (λ v. v ≡ option_map (λ x. x.now) value.entry) }
{
    match value {
        Some(value) => Ok(Some(value.copy()?)),
        None => Ok(None),
    }
}

/// What is read, where it is there. The error is want of memory.
pub(crate) fn operand(m: &Machine, a: Operand) -> Result<Option<Value>, AllocError>
    ensures { IfOk result (λ v. v ≡ spec.operand_at (as_machine m.now) a) }
{
    match a {
        Operand::Of(x) => copy_if(variable(m, x)),
        Operand::Number(z) => Ok(Some(Value::Int(z))),
        Operand::Truth(b) => Ok(Some(Value::Bool(b))),
        Operand::Nil => Ok(Some(Value::Nil)),
    }
}

/// The number that is read, where it is one. The error is want of memory.
fn number(m: &Machine, a: Operand) -> Result<Option<i32>, AllocError>
    ensures { IfOk result (λ z. z ≡ number_in (spec.operand_at (as_machine m.now) a)) }
{
    match operand(m, a)? {
        Some(Value::Int(z)) => Ok(Some(z)),
        _ => Ok(None),
    }
}

/// The truth that is read, where it is one. The error is want of memory.
pub(crate) fn truth(m: &Machine, a: Operand) -> Result<Option<bool>, AllocError>
    ensures { IfOk result (λ b. b ≡ spec.truth_in (spec.operand_at (as_machine m.now) a)) }
{
    match operand(m, a)? {
        Some(Value::Bool(b)) => Ok(Some(b)),
        _ => Ok(None),
    }
}

/// The two numbers that are read, where they are numbers. The error is want of memory.
pub(crate) fn numbers(m: &Machine, x: Operand, y: Operand) -> Result<Option<(i32, i32)>, AllocError>
    ensures { IfOk result
        (λ n. n ≡ numbers_in (spec.operand_at (as_machine m.now) x) (spec.operand_at (as_machine m.now) y)) }
{
    let Some(a) = number(m, x)? else {
        return Ok(None);
    };
    match number(m, y)? {
        Some(b) => Ok(Some((a, b))),
        None => Ok(None),
    }
}

/// The values of variables, where each is there. The error is want of memory.
fn values(m: &Machine, xs: &Seq<Variable>) -> Result<Option<Values>, AllocError>
    ensures { IfOk result (λ vs. vs ≡ spec.variables_at (as_machine m.now) xs.now) }
{
    let mut found = Seq::new(xs.allocator());
    for n in 0..xs.len() {
        let Some(value) = copy_if(variable(m, *xs.at(n)))? else {
            return Ok(None);
        };
        found.push(value)?;
    }
    Ok(Some(found))
}

/// The operands of a stop, of which the own object is the first where the action is on it. The error is want of memory.
pub(crate) fn operands(
    m: &Machine,
    on_itself: bool,
    own: Oid,
    xs: &Seq<Variable>,
) -> Result<Option<Values>, AllocError>
    ensures { IfOk result
        (λ vs. vs ≡ option_map (spec.with_itself on_itself own) (spec.variables_at (as_machine m.now) xs.now)) }
{
    match values(m, xs)? {
        Some(held) => Ok(Some(with_itself(on_itself, own, held))),
        None => Ok(None),
    }
}
