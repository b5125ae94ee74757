//! When two values are the same.
ghost use Rattle.std.specs.Prelude.{◌≡◌};
ghost use Rattle.ec_world.specs.Same as spec;

use crate::value::{Text, Value};

/// Whether two values are the same, where they are of one value type, or two references.
pub fn are_same(u: Value, v: Value) -> Option<bool>
    ensures { result ≡ spec.are_same u v }
{
    match (u, v) {
        (Value::Int(a), Value::Int(b)) => Some(is_same_number(a, b)),
        (Value::Bool(a), Value::Bool(b)) => Some(is_same_truth(a, b)),
        (Value::Str(a), Value::Str(b)) => Some(is_same_text(&a, &b)),
        (Value::Ref(a), Value::Ref(b)) => Some(a == b),
        (Value::Ref(_), Value::Nil) | (Value::Nil, Value::Ref(_)) => Some(false),
        (Value::Nil, Value::Nil) => Some(true),
        _ => None,
    }
}

/// Whether two numbers are one.
fn is_same_number(a: i32, b: i32) -> bool
    ensures { result ≡ spec.is_same_number a b }
{
    a == b
}

/// Whether two truth values are one.
pub fn is_same_truth(a: bool, b: bool) -> bool
    ensures { result ≡ spec.is_same_truth a b }
{
    a == b
}

/// Whether two texts have the same bytes.
fn is_same_text(a: &Text, b: &Text) -> bool
    ensures { result ≡ spec.is_same_text a.now b.now }
{
    a.as_slice() == b.as_slice()
}
