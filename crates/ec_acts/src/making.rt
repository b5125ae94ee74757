//! New objects, at the nodes where their makers are.
ghost use Rattle.std.specs.Prelude.{◌≡◌, ◌-◌, ◌^◌, ◌≤◌, suc, IfOk, IsSome, OnErr, OnOk, Some};
ghost use Rattle.ec_acts.specs.Doings.{DoneTo, OneMore};
ghost use Rattle.ec_cluster.specs.Whereabouts.{made_count};
ghost use Rattle.ec_cluster.specs.SystemSteps.{CanBeDone};
ghost use Rattle.ec_world.specs.Objects.{class_at};
ghost use Rattle.ec_world.specs.Outcomes as spec;
ghost use Rattle.ec_world.specs.Values.{new_fields};
ghost use Rattle.ec_world.specs.declared.doing.Doing.TheVariants.{Makes, MakesVector};

use crate::plain::only;
use ec_base::list::Seq;
use ec_cluster::forward::whereabouts::Whereabouts;
use ec_cluster::making;
use ec_cluster::system::System;
use ec_monitors::monitor::Monitor;
use ec_world::class::{ClassNo, ClassRec, Classes, FieldRec, VectorType};
use ec_world::doing::Outcome;
use ec_world::initial::{default_elements, push_defaults};
use ec_world::stop::{Effect, Who};
use ec_world::value::{Oid, Value, Values};
use std::alloc::{AllocError, Global};

/// A new object of a class at the node of the own object, with the values that are given and the defaults of its other fields, and an
/// activation on it. The error is want of memory, a number of more than 32 bits, or that the node has 2^32 - 1 texts or references.
pub(crate) fn make(
    system: &mut System,
    alloc: Global,
    who: Who,
    class: ClassNo,
    given: Values,
) -> Result<Outcome, AllocError>
    requires { CanBeDone system.old.cluster who (Makes class given) }
    ensures does { IfOk result (λ o. DoneTo system.old system.new who (Makes class given) o) }
    ensures processes { system.new.processes ≡ system.old.processes }
    ensures places { OnOk result (OneMore system.old.cluster system.new.cluster who.own) }
{
    let made = class_of(&system.cluster.parts.classes, class);
    let initial = made.initial;
    let fields = filled(alloc, given, &made.fields)?;
    let monitor = monitor_for(alloc, made)?;
    let oid = next_number(&system.cluster.whereabouts)?;
    making::make(
        &mut system.cluster,
        alloc,
        who.own,
        oid,
        class,
        monitor,
        fields.as_slice(),
    )?;
    Ok(only(Effect::Calls {
        op: initial,
        own: oid,
        args: Seq::new(alloc),
    }))
}

/// A new vector of so many elements at the node of the own object. The error is want of memory, a number of more than 32 bits, or that the
/// node has 2^32 - 1 texts or references.
pub(crate) fn make_vector(
    system: &mut System,
    alloc: Global,
    who: Who,
    of: VectorType,
    size: u32,
) -> Result<Outcome, AllocError>
    requires { CanBeDone system.old.cluster who (MakesVector of size) }
    ensures does { IfOk result (λ o. DoneTo system.old system.new who (MakesVector of size) o) }
    ensures processes { system.new.processes ≡ system.old.processes }
    ensures places { OnOk result (OneMore system.old.cluster system.new.cluster who.own) }
{
    let elements = default_elements(alloc, of.elements(), size)?;
    let oid = next_number(&system.cluster.whereabouts)?;
    making::make(
        &mut system.cluster,
        alloc,
        who.own,
        oid,
        ClassNo::Vector(of),
        None,
        elements.as_slice(),
    )?;
    Ok(only(Effect::GoesOn(Some(Value::Ref(oid)))))
}

/// The class of a number that there is.
fn class_of(classes: &Classes, class: ClassNo) -> &ClassRec
    requires { IsSome (class_at classes.now class) }
    ensures { class_at classes.now class ≡ Some result.now }
{
    match class {
        ClassNo::Made(number) => classes.at(number as usize),
        ClassNo::Node | ClassNo::Program | ClassNo::Vector(_) => unreachable!(),
    }
}

/// The values that are given, and the defaults of the other fields behind them. The error is want of memory.
fn filled(alloc: Global, given: Values, fields: &Seq<FieldRec>) -> Result<Values, AllocError>
    ensures { IfOk result (λ vs. vs ≡ new_fields given fields.now) }
{
    let mut values = given;
    let from = values.len();
    push_defaults(alloc, &mut values, fields, from)?;
    Ok(values)
}

/// The monitor of a new object of a class, where its objects have one. The error is want of memory.
fn monitor_for(alloc: Global, class: &ClassRec) -> Result<Option<Monitor>, AllocError>
    ensures { IfOk result (λ m. m ≡ spec.monitor_for class.now) }
{
    if class.monitored {
        let monitor = Monitor::new(alloc, class.conditions as usize)?;
        return Ok(Some(monitor));
    }
    Ok(None)
}

/// The number of the next object. The error is that there are 2^32 - 1 objects.
fn next_number(whereabouts: &Whereabouts) -> Result<Oid, AllocError>
    ensures ok { IfOk result (λ oid. oid ≡ suc (made_count whereabouts.now)) }
    ensures err { OnErr result (2 ^ 32 - 1 ≤ made_count whereabouts.now) }
{
    whereabouts.next_number().ok_or(AllocError)
}
