//! The members of a group that are at a node: what goes of them, and of their monitors.
ghost use Rattle.std.specs.List.{flat_map};
ghost use Rattle.std.specs.Prelude.{◌≡◌, IfOk};
ghost use Rattle.ec_cluster.specs.Cluster.{CodeWorld};
ghost use Rattle.ec_code.specs.Typing.{Declared};
ghost use Rattle.ec_parcels.specs.Classes.{ClassTable};
ghost use Rattle.ec_packing.specs.Packing as spec;
ghost use Rattle.ec_packing.specs.Packing.{CanGo, CanGoBySome, CanGoInSome, monitor_goes, object_goes};

use ec_base::list::Seq;
use ec_cluster::cluster::Cluster;
use ec_cluster::system::System;
use ec_parcels::mover::classes::ClassNumbers;
use ec_parcels::mover::objects::{monitor_part, object_part};
use ec_wire::parcel::{MonitorPart, ObjectPart};
use ec_world::value::{NodeNo, Oid};
use std::alloc::{AllocError, Global};

/// What goes of each member that is at a node, in the order of the members. The error is want of memory.
pub(crate) fn objects_at(
    system: &System,
    alloc: Global,
    numbers: &ClassNumbers,
    members: &[Oid],
    from: NodeNo,
) -> Result<Seq<ObjectPart>, AllocError>
    requires { CanGoInSome system.now numbers.now members.now from }
    ensures { IfOk result (λ parts. (d : Declared) (w : CodeWorld) → CanGo d system.now w numbers.now members.now from →
        parts ≡ flat_map (object_goes numbers.now system.now.cluster w from) members.now) }
{
    let cluster = &system.cluster;
    let node = cluster.nodes.at(from as usize);
    let mut parts = Seq::new(alloc);
    for i in 0..members.len() {
        let oid = members[i];
        if !is_here(cluster, from, oid) {
            continue;
        }
        let part = object_part(node, alloc, &cluster.parts.classes, numbers, oid)?;
        parts.push(part)?;
    }
    Ok(parts)
}

/// What goes of the monitor of each member that is at a node and has one, in the order of the members. The error is want of memory.
pub(crate) fn monitors_at(
    system: &System,
    alloc: Global,
    members: &[Oid],
    from: NodeNo,
) -> Result<Seq<MonitorPart>, AllocError>
    requires { CanGoBySome system.now members.now from }
    ensures { IfOk result (λ parts. (d : Declared) (w : CodeWorld) (table : ClassTable) → CanGo d system.now w table members.now from →
        parts ≡ flat_map (monitor_goes system.now.cluster w from) members.now) }
{
    let cluster = &system.cluster;
    let node = cluster.nodes.at(from as usize);
    let mut parts = Seq::new(alloc);
    for i in 0..members.len() {
        let oid = members[i];
        if !is_here(cluster, from, oid) {
            continue;
        }
        let Some(part) = monitor_part(node, alloc, oid)? else {
            continue;
        };
        parts.push(part)?;
    }
    Ok(parts)
}

/// Whether a node is the place of an object.
fn is_here(cluster: &Cluster, node: NodeNo, oid: Oid) -> bool
    ensures { result ≡ spec.is_here cluster.now node oid }
{
    match cluster.whereabouts.place(oid) {
        Some(k) => k == node,
        None => false,
    }
}
