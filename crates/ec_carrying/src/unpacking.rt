//! Parcels that come to a node, whoever wrote them.
ghost use Rattle.std.specs.Prelude.{◌≡◌, IfOk, List, OnOk, Some, option_copied};
ghost use Rattle.ec_carrying.specs.Landing.{AreClassed, monitor_in};
ghost use Rattle.ec_carrying.specs.Unpacking.{ActivationFits, AreOfProgram, CanUnpack, CanUnpackAt, HasRoomHere, Unpacked, UnpackedAt};
ghost use Rattle.ec_carrying.specs.Unpacking.{activations_alone, objects_alone};
ghost use Rattle.ec_generate.specs.declared.table.OperationTable.{OperationTable as Table};
ghost use Rattle.ec_parcels.specs.Classes.{ClassTable, class_of};
ghost use Rattle.ec_stores.specs.Node.{store_of};
ghost use Rattle.ec_wire.specs.WireForm.{IsWire};
ghost use Rattle.ec_wire.specs.declared.parcel.ActivationPart.{ActivationPart as PartData};
ghost use Rattle.ec_wire.specs.declared.parcel.Contents.{Contents as ContentsData};
ghost use Rattle.ec_world.specs.Group.{Has};
ghost use Rattle.ec_world.specs.declared.class.ClassNo.{ClassNo as Class};

use ec_base::list::Seq;
use ec_cluster::cluster::Cluster;
use ec_generate::table::OperationTable;
use ec_monitors::record::MonitorRec;
use ec_parcels::mover::activations::put_activation;
use ec_parcels::mover::classes::ClassNumbers;
use ec_parcels::mover::objects::put_object;
use ec_stores::node::NodeStore;
use ec_wire::error::ReadError;
use ec_wire::parcel::{ActivationPart, Contents, MonitorPart, Parcel};
use ec_world::class::ClassNo;
use ec_world::value::{NodeNo, Oid};
use std::alloc::{AllocError, Global};

/// The things that these bytes spell come to a node, by the tables of the program's operations for its kind and the numbers of its
/// classes: each object and each activation stands there by just the values that are spelled, whoever wrote the bytes, and all else is as
/// it was. None of the objects is fixed. The error is want of memory, or that the node has 2^32 - 1 texts or references; what it keeps is
/// then left open.
pub fn unpack(
    node: &mut NodeStore,
    alloc: Global,
    tables: &[OperationTable],
    numbers: &ClassNumbers,
    bytes: &[u8],
) -> Result<(), AllocError>
    requires { CanUnpack numbers.now tables.now (store_of node.old) bytes.now }
    ensures { OnOk result ((x : ContentsData) → IsWire x bytes.now →
        Unpacked numbers.now tables.now x (store_of node.old) (store_of node.new)) }
{
    let parcel = parcel_of(alloc, bytes)?;
    put_contents(node, alloc, tables, numbers, parcel.contents())
}

/// The same for a parcel that was read.
pub fn put_contents(
    node: &mut NodeStore,
    alloc: Global,
    tables: &[OperationTable],
    numbers: &ClassNumbers,
    contents: &Contents,
) -> Result<(), AllocError>
    requires fits { AreOfProgram numbers.now tables.now contents.now }
    requires room { HasRoomHere numbers.now (store_of node.old) contents.now }
    ensures { OnOk result (Unpacked numbers.now tables.now contents.now (store_of node.old) (store_of node.new)) }
{
    put_objects(node, alloc, numbers, contents)?;
    put_activations(node, alloc, tables, &contents.activations)
}

/// The same at a node of a cluster that is the place of the objects already.
pub fn unpack_at(
    cluster: &mut Cluster,
    alloc: Global,
    numbers: &ClassNumbers,
    to: NodeNo,
    bytes: &[u8],
) -> Result<(), AllocError>
    requires { CanUnpackAt numbers.now cluster.old to bytes.now }
    ensures { OnOk result ((x : ContentsData) → IsWire x bytes.now → UnpackedAt numbers.now cluster.old cluster.new to x) }
{
    let node = cluster.nodes.at_mut(to as usize);
    let image = cluster.images.of(node.kind());
    unpack(
        node,
        alloc,
        image.table.operations.as_slice(),
        numbers,
        bytes,
    )
}

/// The parcel that has these bytes. The error is want of memory.
fn parcel_of(alloc: Global, bytes: &[u8]) -> Result<Parcel, AllocError>
    requires { (x : ContentsData) × IsWire x bytes.now }
    ensures { (x : ContentsData) → IsWire x bytes.now → IfOk result (λ parcel. parcel ≡ x) }
{
    match ec_wire::read(alloc, bytes) {
        Ok(parcel) => Ok(parcel),
        Err(ReadError::Memory) => Err(AllocError),
        Err(ReadError::Wire(_)) => unreachable!(),
    }
}

/// The objects in a parcel come to a node, with their monitors; the node has room for all that is in the parcel.
fn put_objects(
    node: &mut NodeStore,
    alloc: Global,
    numbers: &ClassNumbers,
    contents: &Contents,
) -> Result<(), AllocError>
    requires classed { AreClassed numbers.now contents.now.objects }
    requires room { HasRoomHere numbers.now (store_of node.old) contents.now }
    ensures { OnOk result ((tables : List Table) →
        Unpacked numbers.now tables (objects_alone contents.now) (store_of node.old) (store_of node.new)) }
{
    for i in 0..contents.objects.len() {
        let object = contents.objects.at(i);
        let monitor = monitor_of(contents.monitors.as_slice(), object.number);
        let class = class_there(numbers, object.class);
        put_object(node, alloc, class, object, monitor)?;
    }
    Ok(())
}

/// The class of a number that a class has.
fn class_there(numbers: &ClassNumbers, number: u32) -> ClassNo
    requires { (class : Class) × (class_of numbers.now number ≡ Some class) }
    ensures { class_of numbers.now number ≡ Some result }
{
    match numbers.class_of(number) {
        Some(class) => class,
        None => unreachable!(),
    }
}

/// The monitor of an object among those in a parcel: the first one of its number.
fn monitor_of(monitors: &[MonitorPart], oid: Oid) -> Option<&MonitorRec>
    ensures { option_copied result ≡ monitor_in monitors.now oid }
{
    for part in monitors {
        if part.object == oid {
            return Some(&part.monitor);
        }
    }
    None
}

/// Activations come to a node, each at its stop; the node has room for all of them.
fn put_activations(
    node: &mut NodeStore,
    alloc: Global,
    tables: &[OperationTable],
    parts: &Seq<ActivationPart>,
) -> Result<(), AllocError>
    requires fit { (part : PartData) → Has parts.now part → ActivationFits tables.now part }
    requires room { (table : ClassTable) → HasRoomHere table (store_of node.old) (activations_alone parts.now) }
    ensures { OnOk result ((table : ClassTable) →
        Unpacked table tables.now (activations_alone parts.now) (store_of node.old) (store_of node.new)) }
{
    for i in 0..parts.len() {
        put_activation(node, alloc, tables, parts.at(i))?;
    }
    Ok(())
}
