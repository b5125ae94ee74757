//! Which node lacks room for an action, if any.
ghost use Rattle.std.specs.Prelude.{List, IfNone, IfOk, IfSome};
ghost use Rattle.ec_cluster.specs.Cluster.{CodeWorld};
ghost use Rattle.ec_code.specs.Activations.{code_meaning};
ghost use Rattle.ec_code.specs.Typing.{Declared};
ghost use Rattle.ec_code.specs.declared.activation.CodeActivation.{CodeActivation};
ghost use Rattle.ec_fullness.specs.Fullness.{ActsInSome, EachFits, IsFull, place_then};
ghost use Rattle.ec_fullness.specs.Room.{RoomFor};
ghost use Rattle.ec_cluster.specs.Acting.{Asks};
ghost use Rattle.ec_cluster.specs.Systems.{Runs};
ghost use Rattle.ec_world.specs.World.{Action};

use crate::making::{lack_for_vector, lack_to_make};
use crate::nodes::{lack_anywhere, lack_at};
use crate::starting::lack_to_start;
use crate::taking::{lack_below, lack_to_take};
use ec_cluster::system::System;
use ec_world::doing::Doing;
use ec_world::room::Lack;
use ec_world::stop::Who;
use std::alloc::{AllocError, Global};
use std::slice::from_ref;

/// What the least node lacks that has no room for an action, blocks before text, by what the action comes to; nothing where each node has
/// room. At a node an action needs the blocks by which those rise that the world holds there, and the bytes of the texts that the world
/// then has there and the node doesn't have, each text once. The error is want of memory, new texts of 2^32 bytes or more, or an object
/// with 2^32 fields or more.
pub fn fullness(
    system: &System,
    alloc: Global,
    who: Who,
    doing: &Doing,
) -> Result<Option<Lack>, AllocError>
    requires { ActsInSome system.now who doing.now }
    ensures full { IfOk result (λ r. IfSome r (λ lack.
        (d : Declared) (w : CodeWorld) (below : List CodeActivation) (top : CodeActivation) →
        Runs d system.now w → Asks w below top who doing.now →
        IsFull system.now.cluster w (Action code_meaning w who.process) (place_then system.now.cluster who.own) lack.node
        lack.part lack.need lack.free)) }
    ensures fits { IfOk result (λ r. IfNone r (
        (d : Declared) (w : CodeWorld) (below : List CodeActivation) (top : CodeActivation) →
        Runs d system.now w → Asks w below top who doing.now →
        EachFits system.now.cluster w (Action code_meaning w who.process) (place_then system.now.cluster who.own)
        × RoomFor system.now.cluster below top who doing.now)) }
{
    let cluster = &system.cluster;
    match doing {
        Doing::Passes(given) => lack_to_take(
            cluster,
            alloc,
            who.process,
            who.depth,
            who.own,
            given.as_ref(),
        ),
        Doing::Defines { value, .. } => lack_anywhere(cluster, alloc, value),
        Doing::Stores { vector, value, .. } => {
            lack_at(cluster, alloc, *vector, 0, from_ref(value))
        }
        Doing::Makes { class, given } => lack_to_make(cluster, alloc, who.own, *class, given),
        Doing::MakesVector { of, size } => lack_for_vector(cluster, alloc, who.own, *of, *size),
        Doing::Invokes { op, own, args } => {
            lack_to_start(cluster, alloc, *op, *own, args.as_slice())
        }
        Doing::Returns { given, .. } => lack_below(system, alloc, who, given.as_ref()),
        Doing::Moves { .. } => unreachable!(),
        Doing::Prints(_)
        | Doing::Unfixes(_)
        | Doing::Enters
        | Doing::Waits(_)
        | Doing::Signals(_)
        | Doing::Finishes
        | Doing::Breaks { .. } => Ok(None),
    }
}
