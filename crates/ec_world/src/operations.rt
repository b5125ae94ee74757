//! What stops do with operations: entries, invocations, new objects, returns, and the conditions of monitors.
ghost use Rattle.std.specs.Prelude.{◌≡◌, nat_lt, Some};
ghost use Rattle.ec_world.specs.Doings as spec;
ghost use Rattle.ec_world.specs.Objects.{class_at};
ghost use Rattle.ec_world.specs.Sights.{class_record};

use crate::class::{ClassNo, NameNo};
use crate::doing::Doing;
use crate::operands::object_of;
use crate::process::Cause;
use crate::sight::{Sees, class_in, class_record};
use crate::stop::Who;
use crate::value::{Oid, OpNo, Value, Values};

/// Whether the operation of an activation runs in the monitor of its own object.
fn is_inside<W: Sees>(world: &W, who: Who) -> bool
    ensures { result ≡ spec.is_inside (W.sight world.now) who }
{
    match class_record(world, who.own) {
        Some(class) => class.is_inside(who.operation),
        None => false,
    }
}

/// The start of an operation: one that runs in a monitor enters it.
pub(crate) fn enter<W: Sees>(world: &W, who: Who) -> Doing
    ensures { Some result ≡ spec.entry_asks (spec.is_inside (W.sight world.now) who) }
{
    if is_inside(world, who) {
        Doing::Enters
    } else {
        Doing::Passes(None)
    }
}

/// An activation of the receiver's operation of that name.
pub(crate) fn invoke<W: Sees>(world: &W, name: NameNo, line: u32, operands: Values) -> Option<Doing>
    ensures { result ≡ spec.invoke_asks (W.sight world.now) name line operands }
{
    let mut args = operands;
    if args.len() == 0 {
        return None;
    }
    let Some(own) = object_of(args.remove(0))? else {
        return Some(Doing::breaking(Cause::Nil, line));
    };
    let op = class_record(world, own)?.operation_named(name)?;
    Some(Doing::Invokes { op, own, args })
}

/// A new object of a class that there is.
pub(crate) fn create<W: Sees>(world: &W, class: ClassNo, given: Values) -> Option<Doing>
    ensures { result ≡ spec.new_asks class given (class_at (W.sight world.now).classes class) }
{
    class_in(world.classes(), class)?;
    Some(Doing::Makes { class, given })
}

/// What the caller gets: the result, or the object that operation 0 of a class has made, on which its process section begins.
pub(crate) fn give_back<W: Sees>(
    world: &W,
    who: Who,
    gives_self: bool,
    operands: Values,
) -> Option<Doing>
    ensures { result ≡ spec.return_asks (W.sight world.now) who gives_self operands }
{
    let leaves = is_inside(world, who);
    let count = operands.len();
    if gives_self {
        if count > 0 {
            return None;
        }
        return Some(Doing::Returns {
            given: Some(Value::Ref(who.own)),
            leaves,
            section: section_of(world, who.own),
        });
    }
    if count > 1 {
        return None;
    }
    let mut items = operands;
    Some(Doing::Returns {
        given: items.pop(),
        leaves,
        section: None,
    })
}

/// The process section of an object's class, where it has one.
fn section_of<W: Sees>(world: &W, oid: Oid) -> Option<OpNo>
    ensures { result ≡ spec.section_in (class_record (W.sight world.now) oid) }
{
    class_record(world, oid)?.process
}

/// The process waits for a condition of its own object, where its operation runs in the monitor and the class has the condition.
pub(crate) fn wait<W: Sees>(world: &W, who: Who, condition: u32) -> Option<Doing>
    ensures { result ≡ spec.condition_asks (W.sight world.now) who condition (Doing.Waits condition) }
{
    if is_inside(world, who) && has_condition(world, who.own, condition) {
        Some(Doing::Waits(condition))
    } else {
        None
    }
}

/// The process signals a condition of its own object, in the same cases.
pub(crate) fn signal<W: Sees>(world: &W, who: Who, condition: u32) -> Option<Doing>
    ensures { result ≡ spec.condition_asks (W.sight world.now) who condition (Doing.Signals condition) }
{
    if is_inside(world, who) && has_condition(world, who.own, condition) {
        Some(Doing::Signals(condition))
    } else {
        None
    }
}

/// Whether the class of an object has the condition of a number.
fn has_condition<W: Sees>(world: &W, oid: Oid, condition: u32) -> bool
    ensures { result ≡ nat_lt condition (spec.conditions_of (class_record (W.sight world.now) oid)) }
{
    match class_record(world, oid) {
        Some(class) => condition < class.conditions,
        None => false,
    }
}
