//! What is done without a new object and without a monitor.
ghost use Rattle.std.specs.Prelude.{◌≡◌, IfOk, OnOk, None};
ghost use Rattle.ec_cluster.specs.Steps.{CanDefine, Changes, HasField, HasObject, HasRoomAt, Nothing};
ghost use Rattle.ec_acts.specs.Doings.{DoneTo};
ghost use Rattle.ec_world.specs.declared.doing.Doing.TheVariants.{Defines, Prints, Stores, Unfixes};
ghost use Rattle.ec_world.specs.declared.stop.Who.{Who as AnyWho};

use ec_cluster::constants;
use ec_cluster::objects::{set_field, set_flag};
use ec_cluster::system::System;
use ec_world::doing::Outcome;
use ec_world::stop::Effect;
use ec_world::value::{Oid, Text, Value};
use std::alloc::AllocError;

/// No process is granted a monitor, and none starts.
pub(crate) fn only(effect: Effect) -> Outcome
    ensures { result ≡ record { effect = effect; granted = None; started = None } }
{
    Outcome {
        effect,
        granted: None,
        started: None,
    }
}

/// The action is done, and nothing else becomes of processes.
pub(crate) fn goes_on() -> Outcome
    ensures { result ≡ record { effect = Effect.GoesOn None; granted = None; started = None } }
{
    only(Effect::GoesOn(None))
}

/// The output gets a text. The error is want of memory.
pub(crate) fn print(system: &mut System, text: Text) -> Result<Outcome, AllocError>
    ensures does { IfOk result (λ o. (who : AnyWho) → DoneTo system.old system.new who (Prints text) o) }
    ensures processes { system.new.processes ≡ system.old.processes }
    ensures cluster { system.new.cluster ≡ system.old.cluster }
{
    system.output.append(text)?;
    Ok(goes_on())
}

/// A constant of this number, if the program has it, gets its value at every node, which have room for its text. The error is want of
/// memory, or that a node has 2^32 - 1 texts or references; some nodes may then have the value.
pub(crate) fn define(system: &mut System, index: u32, value: &Value) -> Result<Outcome, AllocError>
    requires { CanDefine system.old.cluster index value.now }
    ensures does { IfOk result (λ o. (who : AnyWho) → DoneTo system.old system.new who (Defines index value.now) o) }
    ensures processes { system.new.processes ≡ system.old.processes }
    ensures whereabouts { system.new.cluster.whereabouts ≡ system.old.cluster.whereabouts }
{
    if index as usize >= system.cluster.parts.constants.len() {
        return Ok(goes_on());
    }
    constants::define(&mut system.cluster, index, value)?;
    Ok(goes_on())
}

/// An element of a vector gets a value, for whose text its node has room. The error is want of memory, or that the node has 2^32 - 1
/// texts or references.
pub(crate) fn store(
    system: &mut System,
    vector: Oid,
    index: u32,
    value: &Value,
) -> Result<Outcome, AllocError>
    requires field { HasField system.old.cluster vector index }
    requires room { HasRoomAt system.old.cluster vector value.now }
    ensures does { IfOk result (λ o. (who : AnyWho) → DoneTo system.old system.new who (Stores vector index value.now) o) }
    ensures processes { system.new.processes ≡ system.old.processes }
    ensures whereabouts { system.new.cluster.whereabouts ≡ system.old.cluster.whereabouts }
{
    set_field(&mut system.cluster, vector, index, value)?;
    Ok(goes_on())
}

/// An object is fixed no more.
pub(crate) fn unfix(system: &mut System, oid: Oid) -> Outcome
    requires { HasObject system.old.cluster oid }
    ensures does { (who : AnyWho) → DoneTo system.old system.new who (Unfixes oid) result }
    ensures processes { system.new.processes ≡ system.old.processes }
    ensures texts { Changes Nothing system.old.cluster system.new.cluster }
    ensures whereabouts { system.new.cluster.whereabouts ≡ system.old.cluster.whereabouts }
{
    set_flag(&mut system.cluster, oid, false);
    goes_on()
}
