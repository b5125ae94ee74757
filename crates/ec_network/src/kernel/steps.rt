//! Both steps of an action on nodes.
ghost use Rattle.std.specs.Prelude.{IfErr, IfOk};
ghost use Rattle.ec_cluster.specs.Cluster.{CodeWorld};
ghost use Rattle.ec_cluster.specs.Whereabouts.{MovedOnce};
ghost use Rattle.ec_code.specs.Typing.{Declared};
ghost use Rattle.ec_network.specs.Acts.{ActedIn, AsksInSome, AsksOfEach, HasRoomInEach, RefusedIn};

use crate::kernel::acts::{ActError, Acted};
use ec_acts::doings::does;
use ec_acts::settling::settle;
use ec_cluster::system::System;
use ec_world::doing::Doing;
use ec_world::stop::Who;
use std::alloc::Global;

/// Both steps of an action for which each node has room.
pub(crate) fn both_steps(
    system: &mut System,
    alloc: Global,
    who: Who,
    doing: Doing,
) -> Result<Acted, ActError>
    requires asks { AsksInSome system.old who doing }
    requires room { HasRoomInEach system.old who doing }
    ensures acted { IfOk result (λ a. (d : Declared) (w : CodeWorld) → AsksOfEach d system.old w who doing →
        ActedIn d system.old system.new w who.process a) }
    ensures refused { IfErr result (λ e. (w : CodeWorld) → RefusedIn system.old system.new w who.process e) }
    ensures moves { IfOk result (λ a. MovedOnce system.old.cluster.whereabouts system.new.cluster.whereabouts) }
{
    let outcome = match does(system, alloc, who, doing) {
        Ok(outcome) => outcome,
        Err(e) => return Err(ActError::Memory(e)),
    };
    match settle(system, alloc, who, outcome) {
        Ok(()) => Ok(Acted::Done),
        Err(e) => Err(ActError::Memory(e)),
    }
}
