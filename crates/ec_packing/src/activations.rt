//! The activations at a node on members of a group: what goes of them.
ghost use Rattle.std.specs.Prelude.{◌≡◌, [], ◌∷◌, IfOk, OnOk, length, slice_get, Some};
ghost use Rattle.ec_cluster.specs.Cluster.{CodeWorld};
ghost use Rattle.ec_code.specs.Typing.{Declared};
ghost use Rattle.ec_parcels.specs.Classes.{ClassTable};
ghost use Rattle.ec_packing.specs.Packing.{CanGo, CanGoBySome, activation_goes, process_goes, up_to};
ghost use Rattle.ec_packing.specs.Standing.{AreOnMembers, AreOnOneMore, IsOnMember};
ghost use Rattle.ec_stores.specs.Node.{NodeData, store_of};

use ec_base::list::Seq;
use ec_cluster::system::System;
use ec_parcels::mover::activations::activation_part;
use ec_stores::node::NodeStore;
use ec_wire::parcel::ActivationPart;
use ec_world::value::{NodeNo, Oid, Pid};
use std::alloc::{AllocError, Global};
use std::collections::BTreeSet;

/// What goes of each activation that is at a node on a member, by process and then by depth. It takes the time of the members and of the
/// activations on them. The error is want of memory.
pub(crate) fn activations_at(
    system: &System,
    alloc: Global,
    members: &[Oid],
    from: NodeNo,
) -> Result<Seq<ActivationPart>, AllocError>
    requires { CanGoBySome system.now members.now from }
    ensures { IfOk result (λ parts. (d : Declared) (w : CodeWorld) (table : ClassTable) →
        CanGo d system.now w table members.now from →
        parts ≡ up_to (process_goes system.now.cluster w members.now from) (length w.processes)) }
{
    let node = system.cluster.nodes.at(from as usize);
    let found = on_members(node, alloc, members)?;
    let mut parts = Seq::new(alloc);
    for i in 0..found.len() {
        let (process, depth) = found[i];
        let part = part_at(system, alloc, members, from, process, depth)?;
        parts.push(part)?;
    }
    Ok(parts)
}

/// The activations at a node on members, by process and then by depth. The error is want of memory.
fn on_members(
    node: &NodeStore,
    alloc: Global,
    members: &[Oid],
) -> Result<Vec<(Pid, u32)>, AllocError>
    ensures { IfOk result (λ found. AreOnMembers (store_of node.now) members.now found.items) }
{
    let mut found = BTreeSet::new(alloc);
    for i in 0..members.len() {
        add_on(&mut found, node, alloc, members[i])?;
    }
    found.iter().copied().collect(alloc)
}

/// The activations at a node on an object are found too. The error is want of memory.
fn add_on(
    found: &mut BTreeSet<(Pid, u32)>,
    node: &NodeStore,
    alloc: Global,
    oid: Oid,
) -> Result<(), AllocError>
    ensures { OnOk result (AreOnOneMore (store_of node.now) oid found.old found.new) }
{
    let standing = node.activations_on(alloc, oid)?;
    for i in 0..standing.len() {
        found.insert(standing[i])?;
    }
    Ok(())
}

/// What goes of an activation that is at a node on a member. The error is want of memory.
fn part_at(
    system: &System,
    alloc: Global,
    members: &[Oid],
    from: NodeNo,
    process: Pid,
    depth: u32,
) -> Result<ActivationPart, AllocError>
    requires can { CanGoBySome system.now members.now from }
    requires there { (n : NodeData) → slice_get system.now.cluster.nodes from ≡ Some n →
        IsOnMember (store_of n) members.now (process, depth) }
    ensures { IfOk result (λ part. (d : Declared) (w : CodeWorld) (table : ClassTable) → CanGo d system.now w table members.now from →
        activation_goes system.now.cluster w members.now from process depth ≡ part ∷ []) }
{
    let cluster = &system.cluster;
    let node = cluster.nodes.at(from as usize);
    let image = cluster.images.of(node.kind());
    let tables = image.table.operations.as_slice();
    activation_part(node, alloc, tables, process, depth)
}
