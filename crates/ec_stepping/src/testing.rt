//! Tests.
ghost use Rattle.std.specs.Prelude.{◌≡◌, IfOk};
ghost use Rattle.ec_code.specs.Steps as spec;
ghost use Rattle.ec_stepping.specs.Stepping.{as_machine};

use crate::machine::Machine;
use crate::reading::{numbers, operand, truth};
use ec_code::code::{Operand, Test};
use ec_world::same::{are_same, is_same_truth};
use ec_world::value::Value;
use std::alloc::AllocError;

/// The error is want of memory.
fn same(m: &Machine, x: Operand, y: Operand) -> Result<Option<bool>, AllocError>
    ensures { IfOk result (λ b. b ≡ spec.tested (as_machine m.now) (Test.Same x y)) }
{
    let Some(u) = operand(m, x)? else {
        return Ok(None);
    };
    let Some(v) = operand(m, y)? else {
        return Ok(None);
    };
    Ok(are_same(u, v))
}

/// The error is want of memory.
fn less(m: &Machine, x: Operand, y: Operand) -> Result<Option<bool>, AllocError>
    ensures { IfOk result (λ b. b ≡ spec.tested (as_machine m.now) (Test.Less x y)) }
{
    match numbers(m, x, y)? {
        Some((a, b)) => Ok(Some(a < b)),
        None => Ok(None),
    }
}

/// The error is want of memory.
fn less_equal(m: &Machine, x: Operand, y: Operand) -> Result<Option<bool>, AllocError>
    ensures { IfOk result (λ b. b ≡ spec.tested (as_machine m.now) (Test.LessEqual x y)) }
{
    match numbers(m, x, y)? {
        Some((a, b)) => Ok(Some(a <= b)),
        None => Ok(None),
    }
}

/// The error is want of memory.
fn divides(m: &Machine, x: Operand, y: Operand) -> Result<Option<bool>, AllocError>
    ensures { IfOk result (λ b. b ≡ spec.tested (as_machine m.now) (Test.Divides x y)) }
{
    match numbers(m, x, y)? {
        Some((_, b)) => Ok(Some(b != 0)),
        None => Ok(None),
    }
}

/// Whether a test comes out true; none where it has no case. The error is want of memory.
fn tested(m: &Machine, t: Test) -> Result<Option<bool>, AllocError>
    ensures { IfOk result (λ b. b ≡ spec.tested (as_machine m.now) t) }
{
    match t {
        Test::Holds(x) => truth(m, x),
        Test::Same(x, y) => same(m, x, y),
        Test::Less(x, y) => less(m, x, y),
        Test::LessEqual(x, y) => less_equal(m, x, y),
        Test::Divides(x, y) => divides(m, x, y),
    }
}

/// Whether it comes out as wanted. The error is want of memory.
pub(crate) fn comes_out(m: &Machine, t: Test, wanted: bool) -> Result<Option<bool>, AllocError>
    ensures { IfOk result (λ b. b ≡ spec.as_wanted wanted (spec.tested (as_machine m.now) t)) }
{
    match tested(m, t)? {
        Some(b) => Ok(Some(is_same_truth(wanted, b))),
        None => Ok(None),
    }
}
