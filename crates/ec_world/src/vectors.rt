//! What stops do with vectors.
ghost use Rattle.std.specs.Prelude.{◌≡◌, ◌<◌, ◌≤◌, ℕ, pos, IfOk, IfSome, IfNone};
ghost use Rattle.ec_world.specs.Doings as spec;

use crate::class::VectorType;
use crate::doing::Doing;
use crate::operands::{object_of, one, three, two};
use crate::process::Cause;
use crate::sight::Sees;
use crate::value::{Oid, Value, Values, integer_of};
use std::alloc::{AllocError, Global};

/// The most elements of a vector.
const LARGEST: u32 = 16_384;

/// A new vector of so many elements.
pub(crate) fn new_vector(of: VectorType, line: u32, operands: Values) -> Option<Doing>
    ensures { result ≡ spec.vector_asks of line (spec.one operands) }
{
    let Some(Value::Int(wanted)) = one(operands) else {
        return None;
    };
    match vector_size(wanted) {
        Some(size) => Some(Doing::MakesVector { of, size }),
        None => Some(Doing::breaking(Cause::VectorSize, line)),
    }
}

/// An element of a vector. An error is want of memory.
pub(crate) fn get_element<W: Sees>(
    alloc: Global,
    world: &W,
    line: u32,
    operands: Values,
) -> Result<Option<Doing>, AllocError>
    ensures { IfOk result (λ d. d ≡ spec.get_asks (W.sight world.now) line (spec.two operands)) }
{
    let Some((vector, index)) = two(operands) else {
        return Ok(None);
    };
    let Value::Int(index) = index else {
        return Ok(None);
    };
    let Some(oid) = object_of(vector) else {
        return Ok(None);
    };
    let Some(oid) = oid else {
        return Ok(Some(Doing::breaking(Cause::Nil, line)));
    };
    let Some(_) = world.size_of(oid) else {
        return Ok(None);
    };
    match element_at(alloc, world, oid, index)? {
        Some(value) => Ok(Some(Doing::giving(value))),
        None => Ok(Some(Doing::breaking(Cause::OutOfRange, line))),
    }
}

/// An element of a vector gets a value.
pub(crate) fn set_element<W: Sees>(world: &W, line: u32, operands: Values) -> Option<Doing>
    ensures { result ≡ spec.set_asks (W.sight world.now) line (spec.three operands) }
{
    let (vector, index, value) = three(operands)?;
    let Value::Int(index) = index else {
        return None;
    };
    let Some(oid) = object_of(vector)? else {
        return Some(Doing::breaking(Cause::Nil, line));
    };
    let size = world.size_of(oid)?;
    match place_in(size, index) {
        Some(place) => Some(Doing::Stores {
            vector: oid,
            index: place,
            value,
        }),
        None => Some(Doing::breaking(Cause::OutOfRange, line)),
    }
}

/// How many elements a vector has. An error is a vector of more than 2,147,483,647 elements.
pub(crate) fn count_elements<W: Sees>(
    world: &W,
    line: u32,
    operands: Values,
) -> Result<Option<Doing>, AllocError>
    ensures { IfOk result (λ d. d ≡ spec.size_asks (W.sight world.now) line (spec.one operands)) }
{
    let Some(vector) = one(operands) else {
        return Ok(None);
    };
    let Some(oid) = object_of(vector) else {
        return Ok(None);
    };
    let Some(oid) = oid else {
        return Ok(Some(Doing::breaking(Cause::Nil, line)));
    };
    let Some(size) = world.size_of(oid) else {
        return Ok(None);
    };
    Ok(Some(Doing::giving(Value::Int(integer_of(size)?))))
}

/// How many elements a vector is to have, where it may have so many.
fn vector_size(wanted: i32) -> Option<u32>
    ensures some { IfSome result (λ count. (wanted ≡ pos count) × (count ≤ spec.largest)) }
    ensures none { IfNone result ((count : ℕ) → wanted ≡ pos count → spec.largest < count) }
{
    let Ok(count) = u32::try_from(wanted) else {
        return None;
    };
    if count <= LARGEST { Some(count) } else { None }
}

/// The place of an index among so many elements, where it is in range.
fn place_in(count: usize, index: i32) -> Option<u32>
    ensures some { IfSome result (λ place. (index ≡ pos place) × (place < count)) }
    ensures none { IfNone result ((place : ℕ) → index ≡ pos place → count ≤ place) }
{
    let Ok(place) = u32::try_from(index) else {
        return None;
    };
    if (place as usize) < count {
        Some(place)
    } else {
        None
    }
}

/// The element of an index, where it is in range. An error is want of memory.
fn element_at<W: Sees>(
    alloc: Global,
    world: &W,
    oid: Oid,
    index: i32,
) -> Result<Option<Value>, AllocError>
    ensures { IfOk result (λ v. v ≡ spec.element_at (W.sight world.now) oid index) }
{
    match u32::try_from(index) {
        Ok(place) => world.element(alloc, oid, place),
        Err(_) => Ok(None),
    }
}
