//! A move of objects.
ghost use Rattle.std.specs.Prelude.{IfErr, IfOk};
ghost use Rattle.ec_cluster.specs.Cluster.{CodeWorld};
ghost use Rattle.ec_cluster.specs.Whereabouts.{FewMoves, MovedOnce};
ghost use Rattle.ec_code.specs.Typing.{Declared};
ghost use Rattle.ec_network.specs.Acts.{ActedIn, AsksBetween, AsksBetweenSome, RefusedIn};
ghost use Rattle.ec_world.specs.declared.doing.Doing.TheVariants.{Moves};

use crate::kernel::acts::{ActError, Acted};
use ec_acts::settling::settle;
use ec_cluster::system::System;
use ec_gathering::gathering::gather;
use ec_parcels::mover::classes::ClassNumbers;
use ec_world::doing::Outcome;
use ec_world::stop::{Effect, Who};
use ec_world::value::Oid;
use std::alloc::Global;

/// Both steps of a move: the group goes where the target is, and who asked for it goes on. Where the target's node lacks room for all that
/// comes to it, this is told, and nothing has changed.
pub(crate) fn perform_move(
    system: &mut System,
    alloc: Global,
    numbers: &ClassNumbers,
    who: Who,
    members: &[Oid],
    target: Oid,
    fixes: Option<Oid>,
) -> Result<Acted, ActError>
    requires asks { AsksBetweenSome system.old numbers.now who (Moves members.now target fixes) }
    requires few { FewMoves system.old.cluster.whereabouts }
    ensures acted { IfOk result (λ a. (d : Declared) (w : CodeWorld) →
        AsksBetween d system.old w numbers.now who (Moves members.now target fixes) →
        ActedIn d system.old system.new w who.process a) }
    ensures refused { IfErr result (λ e. (d : Declared) (w : CodeWorld) →
        AsksBetween d system.old w numbers.now who (Moves members.now target fixes) →
        RefusedIn system.old system.new w who.process e) }
    ensures moves { IfOk result (λ a. MovedOnce system.old.cluster.whereabouts system.new.cluster.whereabouts) }
{
    match gather(system, alloc, numbers, members, target, fixes) {
        Ok(None) => {
            let outcome = Outcome {
                effect: Effect::GoesOn(None),
                granted: None,
                started: None,
            };
            match settle(system, alloc, who, outcome) {
                Ok(()) => Ok(Acted::Done),
                Err(e) => Err(ActError::Memory(e)),
            }
        }
        Ok(Some(lack)) => Err(ActError::Full(lack)),
        Err(e) => Err(ActError::Memory(e)),
    }
}
