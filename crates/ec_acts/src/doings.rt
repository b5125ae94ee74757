//! What is done to nodes once an action is looked at.
ghost use Rattle.std.specs.Prelude.{◌≡◌, IfOk, OnOk};
ghost use Rattle.ec_cluster.specs.Cluster.{CodeWorld};
ghost use Rattle.ec_cluster.specs.Steps.{Changes, Nothing};
ghost use Rattle.ec_acts.specs.Doings.{BringsNothing, Places};
ghost use Rattle.ec_cluster.specs.SystemSteps.{CanBeDone, Does};
ghost use Rattle.ec_cluster.specs.Systems.{Mirrors};

use crate::making::{make, make_vector};
use crate::monitors::{enter, leave, signal, wait};
use crate::plain::{define, only, print, store, unfix};
use ec_cluster::system::System;
use ec_world::doing::{Doing, Outcome};
use ec_world::stop::{Effect, Who};
use std::alloc::{AllocError, Global};

/// Does what an action comes to, but for moves. A node has blocks and room for the texts that come to it. An error is want of memory, an
/// object whose number would have more than 32 bits, a node with 2^32 - 1 texts or references, or a process that has entered a monitor
/// 2^32 - 1 times. Nothing is said of the nodes after an error.
pub fn does(
    system: &mut System,
    alloc: Global,
    who: Who,
    doing: Doing,
) -> Result<Outcome, AllocError>
    requires { CanBeDone system.old.cluster who doing }
    ensures does { IfOk result (λ o. (w : CodeWorld) → Mirrors system.old w → Does system.old system.new w who doing o) }
    ensures processes { system.new.processes ≡ system.old.processes }
    ensures texts { OnOk result (BringsNothing doing → Changes Nothing system.old.cluster system.new.cluster) }
    ensures places { OnOk result (Places system.old.cluster system.new.cluster who.own doing) }
{
    match doing {
        Doing::Passes(given) => Ok(only(Effect::GoesOn(given))),
        Doing::Prints(text) => print(system, text),
        Doing::Defines { index, value } => define(system, index, &value),
        Doing::Stores {
            vector,
            index,
            value,
        } => store(system, vector, index, &value),
        Doing::Makes { class, given } => make(system, alloc, who, class, given),
        Doing::MakesVector { of, size } => make_vector(system, alloc, who, of, size),
        Doing::Invokes { op, own, args } => Ok(only(Effect::Calls { op, own, args })),
        Doing::Returns {
            given,
            leaves,
            section,
        } => Ok(leave(system, who, given, leaves, section)),
        Doing::Moves { .. } => unreachable!(),
        Doing::Unfixes(oid) => Ok(unfix(system, oid)),
        Doing::Enters => enter(system, who),
        Doing::Waits(condition) => Ok(wait(system, who, condition)),
        Doing::Signals(condition) => Ok(signal(system, who, condition)),
        Doing::Finishes => Ok(only(Effect::Ends)),
        Doing::Breaks { cause, line } => Ok(only(Effect::Fails { cause, line })),
    }
}
