//! The operands of a stop's action.
ghost use Rattle.std.specs.Prelude.{◌≡◌, IfSome};
ghost use Rattle.ec_world.specs.Doings as spec;
ghost use Rattle.ec_world.specs.Operands.{object_in, object_or_nil};

use crate::value::{Oid, Value, Values};

/// The only operand, where there is one alone.
pub(crate) fn one(operands: Values) -> Option<Value>
    ensures { result ≡ spec.one operands }
{
    let mut items = operands;
    let last = items.pop()?;
    match items.pop() {
        None => Some(last),
        Some(_) => None,
    }
}

/// The two operands, where there are just two.
pub(crate) fn two(operands: Values) -> Option<(Value, Value)>
    ensures { result ≡ spec.two operands }
{
    let mut items = operands;
    let last = items.pop()?;
    let first = one(items)?;
    Some((first, last))
}

/// The three operands, where there are just three.
pub(crate) fn three(operands: Values) -> Option<(Value, Value, Value)>
    ensures { result ≡ spec.three operands }
{
    let mut items = operands;
    let last = items.pop()?;
    let (first, second) = two(items)?;
    Some((first, second, last))
}

/// The object that an operand names, or none where it is nil; none at all where it is another value.
pub(crate) fn object_of(operand: Value) -> Option<Option<Oid>>
    ensures is { result ≡ object_in operand }
    ensures some { IfSome result (λ oid. operand ≡ object_or_nil oid) }
{
    match operand {
        Value::Ref(oid) => Some(Some(oid)),
        Value::Nil => Some(None),
        Value::Int(_) | Value::Bool(_) | Value::Str(_) => None,
    }
}
