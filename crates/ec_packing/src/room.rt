//! What a node lacks for parcels to come to it.
ghost use Rattle.std.specs.Prelude.{◌≡◌, ◌+◌, ◌++◌, ◌^◌, ◌<◌, IfNone, IfOk, IfSome, IsSome, OnOk, length, map};
ghost use Rattle.std.specs.List.{flat_map};
ghost use Rattle.ec_parcels.specs.Classes as numbering;
ghost use Rattle.ec_objects.specs.Lacks.{HasRoomForAll, LacksRoom};
ghost use Rattle.ec_packing.specs.Room.{AreOfClasses, IsOfClasses};
ghost use Rattle.ec_parcels.specs.Owners as owners;
ghost use Rattle.ec_parcels.specs.Owners.{values_in};
ghost use Rattle.ec_stores.specs.Node.{store_of};

use ec_objects::texts::new_bytes;
use ec_parcels::mover::classes::ClassNumbers;
use ec_stores::node::NodeStore;
use ec_stores::rows::class_blocks;
use ec_wire::parcel::{ActivationPart, ObjectPart, Parcel};
use ec_world::room::{Lack, Needs, lack_at};
use ec_world::value::{NodeNo, Value, Values};
use std::alloc::{AllocError, Global};

/// What a node lacks for these parcels to come, blocks before text; nothing where it has room for all of them together. A text that
/// several parcels bring counts once, and one that the node has doesn't count. The error is want of memory, texts of 2^32 bytes or more
/// together, or 2^64 blocks or more.
pub fn lack_for(
    node: &NodeStore,
    number: NodeNo,
    alloc: Global,
    numbers: &ClassNumbers,
    parcels: &[&Parcel],
) -> Result<Option<Lack>, AllocError>
    requires { AreOfClasses numbers.now (map (λ p. p.now) parcels.now) }
    ensures some { IfOk result (λ r. IfSome r (λ lack. LacksRoom (store_of node.now) number
        (owners.all_blocks numbers.now (map (λ p. p.now) parcels.now)) (owners.all_values (map (λ p. p.now) parcels.now)) lack)) }
    ensures none { IfOk result (λ r. IfNone r (HasRoomForAll (store_of node.now)
        (owners.all_blocks numbers.now (map (λ p. p.now) parcels.now)) (owners.all_values (map (λ p. p.now) parcels.now)))) }
{
    let blocks = all_blocks(numbers, parcels)?;
    let values = all_values(alloc, parcels)?;
    let bytes = new_bytes(node, alloc, values.as_slice())?;
    Ok(lack_at(
        number,
        Needs {
            blocks,
            free_blocks: u64::from(node.free_blocks()),
            bytes: u64::from(bytes),
            free_bytes: u64::from(node.text_free()),
        },
    ))
}

/// How many blocks parcels want together. The error is that there are 2^64 or more.
fn all_blocks(numbers: &ClassNumbers, parcels: &[&Parcel]) -> Result<u64, AllocError>
    requires { AreOfClasses numbers.now (map (λ p. p.now) parcels.now) }
    ensures { IfOk result (λ n. n ≡ owners.all_blocks numbers.now (map (λ p. p.now) parcels.now)) }
{
    let mut blocks = 0;
    for i in 0..parcels.len() {
        blocks = plus(blocks, blocks_in(numbers, parcels[i])?)?;
    }
    Ok(blocks)
}

/// How many blocks a parcel wants: those of its objects, and one for each activation. The error is that there are 2^64 or more.
fn blocks_in(numbers: &ClassNumbers, parcel: &Parcel) -> Result<u64, AllocError>
    requires { IsOfClasses numbers.now parcel.now }
    ensures { IfOk result (λ n. n ≡ owners.blocks_in numbers.now parcel.now) }
{
    let contents = parcel.contents();
    let mut blocks = 0;
    for i in 0..contents.objects.len() {
        let object = contents.objects.at(i);
        blocks = plus(blocks, u64::from(object_blocks(numbers, object)))?;
    }
    plus(blocks, contents.activations.len() as u64)
}

/// How many blocks an object wants.
fn object_blocks(numbers: &ClassNumbers, object: &ObjectPart) -> u32
    requires class { IsSome (numbering.class_of numbers.now object.now.class) }
    requires few { length object.now.values < 2 ^ 32 }
    ensures { result ≡ owners.object_blocks numbers.now object.now }
{
    match numbers.class_of(object.class) {
        Some(class) => class_blocks(class, object.values.len() as u32),
        None => unreachable!(),
    }
}

/// A sum, where 64 bits count it.
fn plus(a: u64, b: u64) -> Result<u64, AllocError>
    ensures { IfOk result (λ n. n ≡ a + b) }
{
    match a.checked_add(b) {
        Some(n) => Ok(n),
        None => Err(AllocError),
    }
}

/// The values that parcels bring, one parcel after another. The error is want of memory.
fn all_values(alloc: Global, parcels: &[&Parcel]) -> Result<Vec<Value>, AllocError>
    ensures { IfOk result (λ values. values.items ≡ owners.all_values (map (λ p. p.now) parcels.now)) }
{
    let mut values = Vec::new(alloc);
    for parcel in parcels {
        add_objects(&mut values, parcel.objects())?;
        add_activations(&mut values, parcel.activations())?;
    }
    Ok(values)
}

/// The values of objects, behind those that are there. The error is want of memory.
fn add_objects(values: &mut Vec<Value>, objects: &[ObjectPart]) -> Result<(), AllocError>
    ensures { OnOk result (values.new.items ≡ values.old.items ++ flat_map (λ o. o.values) objects.now) }
{
    for object in objects {
        add_all(values, &object.values)?;
    }
    Ok(())
}

/// The values of activations, behind those that are there. The error is want of memory.
fn add_activations(
    values: &mut Vec<Value>,
    activations: &[ActivationPart],
) -> Result<(), AllocError>
    ensures { OnOk result (values.new.items ≡ values.old.items ++ flat_map (λ a. a.values) activations.now) }
{
    for activation in activations {
        add_all(values, &activation.values)?;
    }
    Ok(())
}

/// Values, behind those that are there. The error is want of memory.
fn add_all(values: &mut Vec<Value>, more: &Values) -> Result<(), AllocError>
    ensures { OnOk result (values.new.items ≡ values.old.items ++ more.now) }
{
    for value in more.as_slice() {
        values.push(value.copy()?)?;
    }
    Ok(())
}
