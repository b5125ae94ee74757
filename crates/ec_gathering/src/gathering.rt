//! A group of objects goes to where another object is.
ghost use Rattle.std.specs.Prelude.{◌≡◌, IfNone, IfOk, IfSome};
ghost use Rattle.ec_cluster.specs.Cluster.{CodeWorld};
ghost use Rattle.ec_cluster.specs.Whereabouts.{FewMoves, MovedOnce};
ghost use Rattle.ec_code.specs.Typing.{Declared};
ghost use Rattle.ec_gathering.specs.Gathers.{Gathers, LacksFor, MayGather, MayGatherSome};

use crate::bringing::{bring, flag};
use crate::lacking::lack_of;
use crate::shipping::ship;
use ec_cluster::objects::node_of;
use ec_cluster::system::System;
use ec_parcels::mover::classes::ClassNumbers;
use ec_world::room::Lack;
use ec_world::value::Oid;
use std::alloc::{AllocError, Global};

/// The first step of a move of a group between nodes: its objects, and the activations on them, go to where the target is, in one parcel
/// from each other node that has a member, and one of them is fixed then, if any. Where the target's node lacks room for all of them
/// together, that is told, blocks before text, and nothing has changed.
///
/// The error is want of memory, 2^32 processes or more, parcels that want 2^64 blocks or more or texts of 2^32 bytes or more together, or
/// that the node has 2^32 - 1 texts or references. What the nodes keep is then left open.
pub fn gather(
    system: &mut System,
    alloc: Global,
    numbers: &ClassNumbers,
    members: &[Oid],
    target: Oid,
    fixes: Option<Oid>,
) -> Result<Option<Lack>, AllocError>
    requires may { MayGatherSome system.old numbers.now members.now target fixes }
    requires few { FewMoves system.old.cluster.whereabouts }
    ensures done { IfOk result (λ r. IfNone r ((d : Declared) (w : CodeWorld) →
        MayGather d system.old w numbers.now members.now target fixes → Gathers system.old system.new w members.now target fixes)) }
    ensures full { IfOk result (λ r. IfSome r (λ lack. (system.new ≡ system.old) × ((d : Declared) (w : CodeWorld) →
        MayGather d system.old w numbers.now members.now target fixes →
        LacksFor system.old.cluster w members.now target fixes lack))) }
    ensures moves { IfOk result (λ r. MovedOnce system.old.cluster.whereabouts system.new.cluster.whereabouts) }
{
    // With the numbers looked at, each is known to be that of one class alone.
    let _made = numbers.made();
    let to = node_of(&system.cluster, target);
    let shipments = ship(system, alloc, numbers, members, to)?;
    let shipments = shipments.as_slice();
    let lack = lack_of(&system.cluster, alloc, numbers, shipments, to)?;
    if lack.is_none() {
        flag(&mut system.cluster, fixes, false);
        bring(&mut system.cluster, alloc, numbers, shipments, to)?;
        flag(&mut system.cluster, fixes, true);
    }
    Ok(lack)
}
