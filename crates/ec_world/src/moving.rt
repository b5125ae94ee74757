//! What stops do with places: groups move, and objects are fixed.
ghost use Rattle.std.specs.Prelude.{◌≡◌, IfOk};
ghost use Rattle.ec_world.specs.Doings as spec;

use crate::class::ClassNo;
use crate::doing::Doing;
use crate::operands::{object_of, one, two};
use crate::process::Cause;
use crate::sight::Sees;
use crate::value::{Oid, Value, Values};
use std::alloc::{AllocError, Global};

/// The group of the first object goes where the second one is, unless a member is fixed. An error is want of memory, or a
/// member whose number has more than 32 bits.
pub(crate) fn move_group<W: Sees>(
    alloc: Global,
    world: &W,
    line: u32,
    operands: Values,
) -> Result<Option<Doing>, AllocError>
    ensures { IfOk result (λ d. d ≡ spec.move_asks line (spec.move_to (W.sight world.now)) (spec.two operands)) }
{
    let Some((x, to)) = two(operands) else {
        return Ok(None);
    };
    let (Some(x), Some(to)) = (object_of(x), object_of(to)) else {
        return Ok(None);
    };
    let (Some(x), Some(to)) = (x, to) else {
        return Ok(Some(Doing::breaking(Cause::Nil, line)));
    };
    let members = world.group(alloc, x)?;
    if any_fixed(world, members.as_slice()) {
        return Ok(Some(Doing::Passes(None)));
    }
    Ok(Some(Doing::Moves {
        members,
        target: to,
        fixes: None,
    }))
}

/// The group of the first object goes where the second one is, and the first one is fixed. An error is want of memory, or a
/// member whose number has more than 32 bits.
pub(crate) fn fix<W: Sees>(
    alloc: Global,
    world: &W,
    line: u32,
    operands: Values,
) -> Result<Option<Doing>, AllocError>
    ensures { IfOk result (λ d. d ≡ spec.move_asks line (spec.fix_at (W.sight world.now) line) (spec.two operands)) }
{
    let Some((x, to)) = two(operands) else {
        return Ok(None);
    };
    let (Some(x), Some(to)) = (object_of(x), object_of(to)) else {
        return Ok(None);
    };
    let (Some(x), Some(to)) = (x, to) else {
        return Ok(Some(Doing::breaking(Cause::Nil, line)));
    };
    let members = world.group(alloc, x)?;
    if any_fixed(world, members.as_slice()) {
        return Ok(Some(Doing::breaking(Cause::GroupFixed, line)));
    }
    Ok(Some(Doing::Moves {
        members,
        target: to,
        fixes: Some(x),
    }))
}

/// The same, also where the first object was fixed before, unless it is a node.
pub(crate) fn refix<W: Sees>(
    alloc: Global,
    world: &W,
    line: u32,
    operands: Values,
) -> Result<Option<Doing>, AllocError>
    ensures { IfOk result (λ d. d ≡ spec.move_asks line (spec.refix_at (W.sight world.now) line) (spec.two operands)) }
{
    let Some((x, to)) = two(operands) else {
        return Ok(None);
    };
    let (Some(x), Some(to)) = (object_of(x), object_of(to)) else {
        return Ok(None);
    };
    let (Some(x), Some(to)) = (x, to) else {
        return Ok(Some(Doing::breaking(Cause::Nil, line)));
    };
    if is_node(world, x) {
        return Ok(Some(Doing::breaking(Cause::NodeFixed, line)));
    }
    let members = world.group(alloc, x)?;
    if any_other_fixed(world, members.as_slice(), x) {
        return Ok(Some(Doing::breaking(Cause::GroupFixed, line)));
    }
    Ok(Some(Doing::Moves {
        members,
        target: to,
        fixes: Some(x),
    }))
}

/// An object is fixed no more, unless it is a node.
pub(crate) fn unfix<W: Sees>(world: &W, line: u32, operands: Values) -> Option<Doing>
    ensures { result ≡ spec.unfix_asks (W.sight world.now) line (spec.one operands) }
{
    let object = one(operands)?;
    let Some(x) = object_of(object)? else {
        return Some(Doing::breaking(Cause::Nil, line));
    };
    if is_node(world, x) {
        return Some(Doing::breaking(Cause::NodeFixed, line));
    }
    Some(Doing::Unfixes(x))
}

/// Whether an object is fixed.
pub(crate) fn tell_fixed<W: Sees>(world: &W, line: u32, operands: Values) -> Option<Doing>
    ensures { result ≡ spec.fixed_asks (W.sight world.now) line (spec.one operands) }
{
    let object = one(operands)?;
    match object_of(object)? {
        Some(x) => Some(Doing::giving(Value::Bool(world.is_fixed(x)))),
        None => Some(Doing::breaking(Cause::Nil, line)),
    }
}

/// Whether an object is that of a node.
fn is_node<W: Sees>(world: &W, oid: Oid) -> bool
    ensures { result ≡ spec.is_node ((W.sight world.now).class oid) }
{
    match world.class_of(oid) {
        Some(class) => class == ClassNo::Node,
        None => false,
    }
}

/// Whether some member is fixed.
fn any_fixed<W: Sees>(world: &W, members: &[Oid]) -> bool
    ensures { result ≡ spec.any_fixed (W.sight world.now) members.now }
{
    for oid in members {
        if world.is_fixed(*oid) {
            return true;
        }
    }
    false
}

/// Whether some member but this one is fixed.
fn any_other_fixed<W: Sees>(world: &W, members: &[Oid], x: Oid) -> bool
    ensures { result ≡ spec.any_fixed (W.sight world.now) (spec.without x members.now) }
{
    for oid in members {
        if *oid != x && world.is_fixed(*oid) {
            return true;
        }
    }
    false
}
