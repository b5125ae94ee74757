//! Objects that go from a node, and objects that come to it.
ghost use Rattle.std.specs.Prelude.{◌≡◌, ◌≤◌, ◌<◌, ◌*◌, ◌^◌, ℕ, List, length, IfOk, IsSome, None, OnOk, Some, option_copied};
ghost use Rattle.ec_parcels.specs.Classes as numbering;
ghost use Rattle.ec_parcels.specs.Objects.{AreFields, CanGo, FieldReads, GoesAs, HasField, HasFields};
ghost use Rattle.ec_parcels.specs.Objects.{monitor_part_of, object_of, part_of};
ghost use Rattle.ec_world.specs.Things.{class_blocks};
ghost use Rattle.ec_world.specs.declared.key.Key.TheVariants.{Object as OfObject};
ghost use Rattle.ec_objects.specs.Values.{TextsFit};
ghost use Rattle.ec_cluster.specs.Kinds as kinds;
ghost use Rattle.ec_stores.specs.Changes.{IsObject};
ghost use Rattle.ec_stores.specs.Node.{store_of};
ghost use Rattle.ec_things.specs.Texts.{GetsTexts, NoTexts};
ghost use Rattle.ec_things.specs.Things.{Puts, Shown, object_thing};
ghost use Rattle.ec_world.specs.Group.{Has};
ghost use Rattle.ec_world.specs.declared.object.ObjectRec.{ObjectRec};
ghost use Rattle.ec_world.specs.declared.value.Value.{Value as ValueData};
ghost use Rattle.ec_world.specs.declared.value.Value.TheVariants.{Str};

use crate::mover::classes::ClassNumbers;
use ec_base::list::Seq;
use ec_monitors::monitor::Monitor;
use ec_monitors::record::MonitorRec;
use ec_objects::objects::create_object;
use ec_objects::values::value_of;
use ec_stores::node::NodeStore;
use ec_stores::rows::Object;
use ec_wire::parcel::{MonitorPart, ObjectPart};
use ec_world::class::{ClassNo, Classes};
use ec_world::value::{Oid, Value, ValueType, Values};
use std::alloc::{AllocError, Global};

/// What goes of an object that is here: its number, the number of its class, and its fields or elements, each read by its kind. Whether
/// it is fixed doesn't go with it, and its monitor goes in a part of its own. The error is want of memory.
pub fn object_part(
    node: &NodeStore,
    alloc: Global,
    classes: &Classes,
    numbers: &ClassNumbers,
    oid: Oid,
) -> Result<ObjectPart, AllocError>
    requires { CanGo numbers.now classes.now (store_of node.now) oid }
    ensures { (o : ObjectRec) (number : ℕ) → GoesAs numbers.now classes.now (store_of node.now) oid o number →
        IfOk result (λ part. part ≡ part_of oid number o) }
{
    let object = object_here(node, oid);
    let class = number_there(numbers, object.class);
    let values = fields_of(node, alloc, classes, oid, object)?;
    Ok(ObjectPart {
        number: oid,
        class,
        values,
    })
}

/// What goes of the monitor of an object that is here, where it has one. The error is want of memory.
pub fn monitor_part(
    node: &NodeStore,
    alloc: Global,
    oid: Oid,
) -> Result<Option<MonitorPart>, AllocError>
    ensures { (o : ObjectRec) → Shown (store_of node.now) (OfObject oid) (object_thing oid o) →
        IfOk result (λ part. part ≡ monitor_part_of oid o.monitor) }
{
    match node.monitor(oid) {
        Some(monitor) => {
            let monitor = monitor.to_record(alloc)?;
            Ok(Some(MonitorPart {
                object: oid,
                monitor,
            }))
        }
        None => Ok(None),
    }
}

/// An object that is here goes, with its monitor, and its blocks are free. Takes no memory.
pub fn remove_object(node: &mut NodeStore, oid: Oid)
    requires { IsSome ((store_of node.old).row (OfObject oid)) }
    ensures puts { Puts (store_of node.old) (store_of node.new) (OfObject oid) None }
    ensures gets { GetsTexts NoTexts (store_of node.old) (store_of node.new) }
{
    let _ = node.remove(oid);
}

/// An object of a class comes, not fixed, with its monitor where it has one; the node has blocks for it and room for its texts. The
/// error is want of memory, or that the node has 2^32 - 1 texts or references; what it keeps is then left open.
pub fn put_object(
    node: &mut NodeStore,
    alloc: Global,
    class: ClassNo,
    part: &ObjectPart,
    monitor: Option<&MonitorRec>,
) -> Result<(), AllocError>
    requires new { (store_of node.old).row (OfObject part.now.number) ≡ None }
    requires blocks { class_blocks class (length part.now.values) ≤ (store_of node.old).free }
    requires few { length part.now.values ≤ 128 * class_blocks class (length part.now.values) }
    requires small { length part.now.values < 2 ^ 32 }
    requires texts { TextsFit (store_of node.old) part.now.values }
    ensures puts { OnOk result (Puts (store_of node.old) (store_of node.new) (OfObject part.now.number)
        (Some (object_thing part.now.number (object_of class part.now (option_copied monitor.entry))))) }
    ensures gets { OnOk result (GetsTexts (λ text. Has part.now.values (Str text)) (store_of node.old) (store_of node.new)) }
{
    let monitor = monitor_told(alloc, monitor)?;
    create_object(
        node,
        alloc,
        part.number,
        class,
        false,
        monitor,
        part.values.as_slice(),
    )
}

/// The monitor that a record tells, where there is one. The error is want of memory.
fn monitor_told(alloc: Global, monitor: Option<&MonitorRec>) -> Result<Option<Monitor>, AllocError>
    ensures { IfOk result (λ m. m ≡ option_copied monitor.entry) }
{
    match monitor {
        Some(record) => Ok(Some(Monitor::from_record(alloc, record)?)),
        None => Ok(None),
    }
}

/// An object that is here.
fn object_here(node: &NodeStore, oid: Oid) -> Object
    requires { IsSome ((store_of node.now).row (OfObject oid)) }
    ensures { IsObject (store_of node.now) oid result }
{
    match node.object(oid) {
        Some(object) => object,
        None => unreachable!(),
    }
}

/// The number of a class that has one.
fn number_there(numbers: &ClassNumbers, class: ClassNo) -> u32
    requires { IsSome (numbering.number_of numbers.now class) }
    ensures { numbering.number_of numbers.now class ≡ Some result }
{
    match numbers.number_of(class) {
        Some(number) => number,
        None => unreachable!(),
    }
}

/// The fields or elements of an object that is here. The error is want of memory.
fn fields_of(
    node: &NodeStore,
    alloc: Global,
    classes: &Classes,
    oid: Oid,
    object: Object,
) -> Result<Values, AllocError>
    requires { HasFields classes.now (store_of node.now) oid object.class object.size }
    ensures { (values : List ValueData) → AreFields classes.now (store_of node.now) oid object.class object.size values →
        IfOk result (λ fields. fields ≡ values) }
{
    let mut values = Seq::new(alloc);
    for i in 0..object.size {
        let value = field_of(node, classes, oid, object.class, i)?;
        values.push(value)?;
    }
    Ok(values)
}

/// A field or an element of an object of a class that is here, read by its kind. The error is want of memory.
fn field_of(
    node: &NodeStore,
    classes: &Classes,
    oid: Oid,
    class: ClassNo,
    i: u32,
) -> Result<Value, AllocError>
    requires { HasField classes.now (store_of node.now) oid class i }
    ensures { (v : ValueData) → FieldReads classes.now (store_of node.now) oid class i v → IfOk result (λ u. u ≡ v) }
{
    let _kind = node.kind();
    let of = kind_there(classes, class, i);
    let word = node.object_word(oid, i);
    value_of(node, of, word)
}

/// Of which kind a field or an element is that objects of a class have.
fn kind_there(classes: &Classes, class: ClassNo, i: u32) -> ValueType
    requires { IsSome (kinds.kind_at classes.now class i) }
    ensures { kinds.kind_at classes.now class i ≡ Some result }
{
    match kind_at(classes, class, i) {
        Some(of) => of,
        None => unreachable!(),
    }
}

/// Of which kind a field or an element of objects of a class is; none where they have no such field.
fn kind_at(classes: &Classes, class: ClassNo, i: u32) -> Option<ValueType>
    ensures { result ≡ kinds.kind_at classes.now class i }
{
    match class {
        ClassNo::Made(place) => made_kind(classes, place, i),
        ClassNo::Vector(of) => Some(of.elements()),
        ClassNo::Program | ClassNo::Node => None,
    }
}

/// The same of a class or object constructor.
fn made_kind(classes: &Classes, place: u32, i: u32) -> Option<ValueType>
    ensures { result ≡ kinds.kind_at classes.now (ClassNo.Made place) i }
{
    let class = classes.get(place as usize)?;
    let field = class.fields.get(i as usize)?;
    Some(field.of)
}
