//! A parcel goes from one node to another.
ghost use Rattle.std.specs.Prelude.{◌≢◌, ℕ, List, OnOk};
ghost use Rattle.ec_carrying.specs.Carrying.{CanCarry, Carried, IsCarriedIn};
ghost use Rattle.ec_carrying.specs.Moves.{AreAll, SetOff};
ghost use Rattle.ec_carrying.specs.Steps.{AreKept};
ghost use Rattle.ec_cluster.specs.Cluster.{CodeWorld};
ghost use Rattle.ec_cluster.specs.Whereabouts.{FewElsewhere, WentTo};
ghost use Rattle.ec_code.specs.Typing.{Declared};
ghost use Rattle.ec_parcels.specs.Owners.{keys_of};
ghost use Rattle.ec_wire.specs.WireForm.{IsWire};
ghost use Rattle.ec_wire.specs.declared.parcel.Contents.{Contents as ContentsData};

use crate::moving::note_moves;
use crate::taking::{take_activations, take_objects};
use crate::unpacking::unpack_at;
use ec_cluster::cluster::Cluster;
use ec_parcels::mover::classes::ClassNumbers;
use ec_wire::parcel::{Contents, Parcel};
use ec_world::value::NodeNo;
use std::alloc::{AllocError, Global};

/// The things of a parcel go from one node to another, by the nodes' numbers from 0: they are taken away at the first, it is
/// noted where the objects are now, and they are put at the second from the parcel's bytes alone. None of the objects is fixed, and the
/// second node has blocks for all of them and for the activations on them, and room for their texts. The error is want of memory, or that
/// this node has 2^32 - 1 texts or references; what the nodes keep is then left open.
pub fn carry(
    cluster: &mut Cluster,
    alloc: Global,
    numbers: &ClassNumbers,
    from: NodeNo,
    to: NodeNo,
    parcel: &Parcel,
    bytes: &[u8],
) -> Result<(), AllocError>
    requires spelled { IsWire parcel.now bytes.now }
    requires can { CanCarry numbers.now cluster.old from to bytes.now }
    requires few { FewElsewhere to cluster.old.whereabouts }
    ensures carried { OnOk result ((d : Declared) (w : CodeWorld) (members : List ℕ) (x : ContentsData) →
        IsCarriedIn numbers.now cluster.old from to bytes.now d w members x → Carried cluster.old cluster.new w x to) }
    ensures went { OnOk result (WentTo to cluster.old.whereabouts cluster.new.whereabouts) }
{
    // With the numbers looked at, each is known to be that of one class alone.
    let _made = numbers.made();
    set_off(cluster, from, to, parcel.contents())?;
    unpack_at(cluster, alloc, numbers, to, bytes)
}

/// All that is in a parcel goes from the node where it is, and it is noted that its objects are at another. The error is want of memory;
/// what is noted is then left open.
fn set_off(
    cluster: &mut Cluster,
    from: NodeNo,
    to: NodeNo,
    contents: &Contents,
) -> Result<(), AllocError>
    requires kept { AreKept cluster.old from (keys_of contents.now) }
    requires there { AreAll cluster.old.whereabouts contents.now.objects from }
    requires apart { to ≢ from }
    requires few { FewElsewhere to cluster.old.whereabouts }
    ensures off { OnOk result (SetOff cluster.old cluster.new from to contents.now) }
    ensures went { OnOk result (WentTo to cluster.old.whereabouts cluster.new.whereabouts) }
{
    take_objects(cluster, from, &contents.objects);
    take_activations(cluster, from, &contents.activations);
    note_moves(&mut cluster.whereabouts, from, to, &contents.objects)?;
    Ok(())
}
