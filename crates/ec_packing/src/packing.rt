//! The parcel of what goes of a group from a node.
ghost use Rattle.std.specs.Prelude.{◌≡◌, IfOk};
ghost use Rattle.ec_cluster.specs.Cluster.{CodeWorld};
ghost use Rattle.ec_code.specs.Typing.{Declared};
ghost use Rattle.ec_packing.specs.Packing.{CanGo, CanGoInSome};
ghost use Rattle.ec_parcels.specs.Parcels.{Packs};

use crate::activations::activations_at;
use crate::blocks::look_at_blocks;
use crate::objects::{monitors_at, objects_at};
use crate::widths::look_at;
use ec_cluster::system::System;
use ec_parcels::mover::classes::ClassNumbers;
use ec_wire::parcel::{Contents, Parcel};
use ec_world::value::{NodeNo, Oid};
use std::alloc::{AllocError, Global};

/// The parcel of a group's things at a node: the objects of the group that are there, their monitors, and the activations on them.
/// Nothing changes. The error is want of memory, or that there are 2^32 processes or more.
pub fn pack(
    system: &System,
    alloc: Global,
    numbers: &ClassNumbers,
    members: &[Oid],
    from: NodeNo,
) -> Result<Parcel, AllocError>
    requires { CanGoInSome system.now numbers.now members.now from }
    ensures { IfOk result (λ parcel. (d : Declared) (w : CodeWorld) → CanGo d system.now w numbers.now members.now from →
        Packs numbers.now system.now.cluster w members.now from parcel) }
{
    if system.processes.len() >= 0x1_0000_0000 {
        return Err(AllocError);
    }
    let objects = objects_at(system, alloc, numbers, members, from)?;
    let monitors = monitors_at(system, alloc, members, from)?;
    let activations = activations_at(system, alloc, members, from)?;
    let node = system.cluster.nodes.at(from as usize);
    look_at_blocks(node, activations.as_slice());
    let contents = Contents {
        objects,
        monitors,
        activations,
    };
    look_at(&contents);
    Ok(Parcel::new(contents))
}
