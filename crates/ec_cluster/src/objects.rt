//! Steps on objects at their nodes.
ghost use Rattle.std.specs.Prelude.{◌≡◌, ◌<◌, IfOk, OnOk, Some, length};
ghost use Rattle.ec_cluster.specs.Cluster.{CodeWorld, Shows, place};
ghost use Rattle.ec_cluster.specs.Steps.{Changes, HasField, HasObject, HasPlace, HasRoomAt, Nothing, WhereIs, with_common};
ghost use Rattle.ec_world.specs.Outcomes.{flagged, stored_in};
ghost use Rattle.ec_world.specs.declared.value.Value.TheVariants.{Str};

use crate::cluster::Cluster;
use ec_objects::{flags, objects};
use ec_world::value::{NodeNo, Oid, Value};
use std::alloc::AllocError;

/// The node at which an object is.
pub fn node_of(cluster: &Cluster, oid: Oid) -> NodeNo
    requires { HasPlace cluster.now oid }
    ensures { place cluster.now oid ≡ Some result }
{
    match cluster.whereabouts.place(oid) {
        Some(node) => node,
        None => unreachable!(),
    }
}

/// An object is fixed from now on, or no more.
pub fn set_flag(cluster: &mut Cluster, oid: Oid, fixed: bool)
    requires { HasObject cluster.old oid }
    ensures changes { Changes Nothing cluster.old cluster.new }
    ensures whereabouts { cluster.new.whereabouts ≡ cluster.old.whereabouts }
    ensures shows { (w : CodeWorld) → Shows cluster.old w → Shows cluster.new (with_common w (flagged w.common oid fixed)) }
{
    let k = node_of(cluster, oid);
    flags::set_flag(cluster.nodes.at_mut(k as usize), oid, fixed);
}

/// A field or an element of an object gets a value, for whose text its node has room. The error is want of memory, or that the node has
/// 2^32 - 1 texts or references.
pub fn set_field(
    cluster: &mut Cluster,
    oid: Oid,
    field: u32,
    value: &Value,
) -> Result<(), AllocError>
    requires field { HasField cluster.old oid field }
    requires room { HasRoomAt cluster.old oid value.now }
    ensures changes { OnOk result (Changes (WhereIs cluster.old oid (λ text. value.now ≡ Str text)) cluster.old cluster.new) }
    ensures whereabouts { cluster.new.whereabouts ≡ cluster.old.whereabouts }
    ensures shows { OnOk result ((w : CodeWorld) → Shows cluster.old w →
        Shows cluster.new (with_common w (stored_in w.common oid field value.now))) }
{
    let k = node_of(cluster, oid);
    objects::set_field(cluster.nodes.at_mut(k as usize), oid, field, value)
}
