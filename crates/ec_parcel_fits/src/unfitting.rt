//! Why the contents of a parcel don't fit at a node, whoever wrote them.
ghost use Rattle.std.specs.Prelude.{IfNone, IfOk, IfSome, IsFalse, IsTrue, IsSome};
ghost use Rattle.ec_parcel_fits.specs.Unfitting.{Fits, IsUnfit, ObjectFails, ObjectFits, RoomFails, StrayMonitor, UnfitObject};
ghost use Rattle.ec_parcels.specs.Classes.{class_of};
ghost use Rattle.ec_parcels.specs.Owners.{blocks_in, object_keys, values_in};
ghost use Rattle.ec_objects.specs.Lacks.{HasRoomForAll};
ghost use Rattle.ec_stores.specs.Node.{store_of};
ghost use Rattle.ec_wire.specs.declared.parcel.MonitorPart.{MonitorPart as MonitorData};
ghost use Rattle.ec_wire.specs.declared.parcel.ObjectPart.{ObjectPart as ObjectData};
ghost use Rattle.ec_world.specs.Group.{Has};
ghost use Rattle.ec_world.specs.declared.key.Key.TheVariants.{Object};

use crate::causes::{ObjectCause, Unfit};
use crate::stops::unfit_activation;
use ec_generate::table::OperationTable;
use ec_packing::room::lack_for;
use ec_parcels::mover::classes::ClassNumbers;
use ec_stores::node::NodeStore;
use ec_wire::parcel::{MonitorPart, ObjectPart, Parcel};
use ec_world::room::Part;
use ec_world::value::Oid;
use std::alloc::{AllocError, Global};

/// Why the contents of a parcel don't fit at a node, by the tables of the program's operations for its kind and the numbers of its
/// classes; nothing where they are of the program and the node has room for them, so that they can be unpacked there. Where there are
/// several reasons, one of them is told. The error is want of memory, texts of 2^32 bytes or more together, or 2^64 blocks or more.
pub fn unfit(
    node: &NodeStore,
    alloc: Global,
    tables: &[OperationTable],
    numbers: &ClassNumbers,
    parcel: &Parcel,
) -> Result<Option<Unfit>, AllocError>
    ensures some { IfOk result (λ r. IfSome r (λ u. IsUnfit numbers.now tables.now (store_of node.now) parcel.now u)) }
    ensures none { IfOk result (λ r. IfNone r (Fits numbers.now tables.now (store_of node.now) parcel.now)) }
{
    // What a node keeps is tidy.
    let _tidy = node.kind();
    let contents = parcel.contents();
    let objects = contents.objects.as_slice();
    let monitors = contents.monitors.as_slice();
    let activations = contents.activations.as_slice();
    if let Some((oid, cause)) = unfit_object(node, numbers, objects) {
        return Ok(Some(Unfit::OfObject(oid, cause)));
    }
    if let Some(oid) = stray_monitor(monitors, objects) {
        return Ok(Some(Unfit::OfMonitor(oid)));
    }
    if let Some((process, depth, cause)) = unfit_activation(node, tables, activations)? {
        return Ok(Some(Unfit::OfActivation(process, depth, cause)));
    }
    match lacks(node, alloc, numbers, parcel)? {
        Some(part) => Ok(Some(Unfit::NoRoom(part))),
        None => Ok(None),
    }
}

/// One of these objects that doesn't fit, by its number, and why.
fn unfit_object(
    node: &NodeStore,
    numbers: &ClassNumbers,
    objects: &[ObjectPart],
) -> Option<(Oid, ObjectCause)>
    ensures some { IfSome result (λ r. UnfitObject numbers.now (store_of node.now) objects.now r.0 r.1) }
    ensures none { IfNone result ((part : ObjectData) → Has objects.now part → ObjectFits numbers.now (store_of node.now) part) }
{
    for part in objects {
        if let Some(cause) = object_fails(node, numbers, part) {
            return Some((part.number, cause));
        }
    }
    None
}

/// Why an object doesn't fit.
fn object_fails(node: &NodeStore, numbers: &ClassNumbers, part: &ObjectPart) -> Option<ObjectCause>
    ensures some { IfSome result (λ cause. ObjectFails numbers.now (store_of node.now) part.now cause) }
    ensures none { IfNone result (ObjectFits numbers.now (store_of node.now) part.now) }
{
    if numbers.class_of(part.class).is_none() {
        return Some(ObjectCause::NoClass);
    }
    if node.object(part.number).is_some() {
        return Some(ObjectCause::NumberTaken);
    }
    None
}

/// An object that one of these monitors is of, and that isn't one of these objects, by its number.
fn stray_monitor(monitors: &[MonitorPart], objects: &[ObjectPart]) -> Option<Oid>
    ensures some { IfSome result (λ oid. StrayMonitor monitors.now objects.now oid) }
    ensures none { IfNone result ((part : MonitorData) → Has monitors.now part → Has (object_keys objects.now) (Object part.object)) }
{
    for part in monitors {
        if !has_object(objects, part.object) {
            return Some(part.object);
        }
    }
    None
}

/// Whether one of these objects has this number.
fn has_object(objects: &[ObjectPart], oid: Oid) -> bool
    ensures there { IsTrue result → Has (object_keys objects.now) (Object oid) }
    ensures none { IsFalse result → Has (object_keys objects.now) (Object oid) → ⊥ }
{
    for part in objects {
        if part.number == oid {
            return true;
        }
    }
    false
}

/// What a node lacks for a parcel, where the class number of each object is that of a class.
fn lacks(
    node: &NodeStore,
    alloc: Global,
    numbers: &ClassNumbers,
    parcel: &Parcel,
) -> Result<Option<Part>, AllocError>
    requires { (part : ObjectData) → Has parcel.now.objects part → IsSome (class_of numbers.now part.class) }
    ensures some { IfOk result (λ r. IfSome r (λ part. RoomFails numbers.now (store_of node.now) parcel.now part)) }
    ensures none { IfOk result (λ r. IfNone r
        (HasRoomForAll (store_of node.now) (blocks_in numbers.now parcel.now) (values_in parcel.now))) }
{
    match lack_for(node, 0, alloc, numbers, &[parcel])? {
        Some(lack) => Ok(Some(lack.part)),
        None => Ok(None),
    }
}
