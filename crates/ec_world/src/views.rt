//! What stops do with views of objects, and with the nodes' objects.
ghost use Rattle.std.specs.Prelude.{◌≡◌, pos, IfOk};
ghost use Rattle.ec_world.specs.Doings as spec;
ghost use Rattle.ec_world.specs.Objects.{conforms as class_conforms};

use crate::class::{ClassNo, Classes, ViewedAs};
use crate::doing::Doing;
use crate::operands::{object_of, one};
use crate::process::Cause;
use crate::sight::{Sees, class_in};
use crate::value::{Value, Values, integer_of};
use std::alloc::AllocError;

/// An object is viewed as a type. Nil is viewed as nil.
pub(crate) fn view<W: Sees>(world: &W, to: ViewedAs, line: u32, operands: Values) -> Option<Doing>
    ensures { result ≡ spec.view_asks (W.sight world.now) line to (spec.one operands) }
{
    let viewed = one(operands)?;
    let Some(oid) = object_of(viewed)? else {
        return Some(Doing::giving(Value::Nil));
    };
    let class = world.class_of(oid)?;
    if conforms(world.classes(), class, to) {
        Some(Doing::giving(Value::Ref(oid)))
    } else {
        Some(Doing::breaking(Cause::NotConforming, line))
    }
}

/// Whether an object of a class conforms to a type.
fn conforms(classes: &Classes, class: ClassNo, to: ViewedAs) -> bool
    ensures { result ≡ class_conforms classes.now class to }
{
    match to {
        ViewedAs::Any => true,
        ViewedAs::Node => class == ClassNo::Node,
        ViewedAs::Vector(of) => class == ClassNo::Vector(of),
        ViewedAs::Named { number, is_bare } => conforms_to_named(classes, class, number, is_bare),
    }
}

/// Whether an object of a class conforms to a named type.
fn conforms_to_named(classes: &Classes, class: ClassNo, number: u32, is_bare: bool) -> bool
    ensures { result ≡ class_conforms classes.now class (ViewedAs.Named number is_bare) }
{
    let ClassNo::Made(_) = class else {
        return is_bare;
    };
    match class_in(classes, class) {
        Some(class) => class.conforms_to(number),
        None => false,
    }
}

/// The object of the node of a number.
pub(crate) fn node_at<W: Sees>(world: &W, line: u32, operands: Values) -> Option<Doing>
    ensures { result ≡ spec.node_asks (W.sight world.now) line (spec.one operands) }
{
    let Some(Value::Int(number)) = one(operands) else {
        return None;
    };
    let nodes = world.nodes();
    match u32::try_from(number) {
        Ok(k) if k < nodes => Some(Doing::giving(Value::Ref(k + 1))),
        _ => Some(Doing::breaking(Cause::NoSuchNode, line)),
    }
}

/// How many nodes there are. An error is more than 2,147,483,647 nodes.
pub(crate) fn count_nodes<W: Sees>(world: &W) -> Result<Option<Doing>, AllocError>
    ensures { IfOk result (λ d. d ≡ spec.gives (Value.Int (pos (W.sight world.now).nodes))) }
{
    Ok(Some(Doing::giving(Value::Int(integer_of(world.nodes() as usize)?))))
}
