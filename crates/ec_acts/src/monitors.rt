//! What processes do to the monitors of their own objects.
ghost use Rattle.std.specs.Prelude.{◌≡◌, ◌&&◌, IfNone, IfOk, IfSome, None, OnOk, length, nat_lt};
ghost use Rattle.ec_cluster.specs.Steps.{Changes, HasObject, MonitorThere, Nothing};
ghost use Rattle.ec_acts.specs.Doings.{DoneTo};
ghost use Rattle.ec_monitors.specs.Monitors.{is_held_by};
ghost use Rattle.ec_stores.specs.Changes.{LacksMonitor, MonitorIs};
ghost use Rattle.ec_world.specs.Outcomes as spec;
ghost use Rattle.ec_world.specs.declared.doing.Doing.TheVariants.{Enters, Returns, Signals, Waits};

use crate::plain::{goes_on, only};
use ec_cluster::cluster::Cluster;
use ec_cluster::monitors;
use ec_cluster::objects::node_of;
use ec_cluster::system::System;
use ec_monitors::monitor::Monitor;
use ec_monitors::record::{Entry, Granted};
use ec_world::doing::{Outcome, Section};
use ec_world::stop::{Effect, Queue, Who};
use ec_world::value::{Oid, OpNo, Pid, Value};
use std::alloc::AllocError;

/// A process enters the monitor of its own object, where this has one, or waits to. The error is want of memory, or a depth of more than
/// 32 bits.
pub(crate) fn enter(system: &mut System, who: Who) -> Result<Outcome, AllocError>
    requires { HasObject system.old.cluster who.own }
    ensures does { IfOk result (λ o. DoneTo system.old system.new who Enters o) }
    ensures processes { system.new.processes ≡ system.old.processes }
    ensures texts { OnOk result (Changes Nothing system.old.cluster system.new.cluster) }
    ensures whereabouts { system.new.cluster.whereabouts ≡ system.old.cluster.whereabouts }
{
    let Some(_) = monitor_of(&system.cluster, who.own) else {
        return Ok(goes_on());
    };
    let entry = monitors::enter(&mut system.cluster, who.own, who.process)?;
    Ok(only(entry_effect(who.own, entry)))
}

/// A process waits for a condition of its own object, where this has a monitor. Another than the holder, or one that waits for a condition
/// that the monitor doesn't have, leaves it as it was.
pub(crate) fn wait(system: &mut System, who: Who, condition: u32) -> Outcome
    requires { HasObject system.old.cluster who.own }
    ensures does { DoneTo system.old system.new who (Waits condition) result }
    ensures processes { system.new.processes ≡ system.old.processes }
    ensures texts { Changes Nothing system.old.cluster system.new.cluster }
    ensures whereabouts { system.new.cluster.whereabouts ≡ system.old.cluster.whereabouts }
{
    let Some(monitor) = monitor_of(&system.cluster, who.own) else {
        return goes_on();
    };
    if !acts_on(monitor, who.process, condition) {
        return waits(who.own, None);
    }
    let granted = monitors::wait(
        &mut system.cluster,
        who.own,
        who.process,
        condition as usize,
    );
    waits(who.own, granted)
}

/// A process signals a condition of its own object, where this has a monitor. It blocks where somebody waited for it. Another than the
/// holder, or one that signals a condition that the monitor doesn't have, leaves it as it was.
pub(crate) fn signal(system: &mut System, who: Who, condition: u32) -> Outcome
    requires { HasObject system.old.cluster who.own }
    ensures does { DoneTo system.old system.new who (Signals condition) result }
    ensures processes { system.new.processes ≡ system.old.processes }
    ensures texts { Changes Nothing system.old.cluster system.new.cluster }
    ensures whereabouts { system.new.cluster.whereabouts ≡ system.old.cluster.whereabouts }
{
    let Some(monitor) = monitor_of(&system.cluster, who.own) else {
        return goes_on();
    };
    if !acts_on(monitor, who.process, condition) {
        return signals(who.own, None);
    }
    let granted = monitors::signal(
        &mut system.cluster,
        who.own,
        who.process,
        condition as usize,
    );
    signals(who.own, granted)
}

/// An activation goes, out of the monitor of its own object where it had entered it.
pub(crate) fn leave(
    system: &mut System,
    who: Who,
    given: Option<Value>,
    leaves: bool,
    section: Option<OpNo>,
) -> Outcome
    requires { HasObject system.old.cluster who.own }
    ensures does { DoneTo system.old system.new who (Returns given leaves section) result }
    ensures processes { system.new.processes ≡ system.old.processes }
    ensures texts { Changes Nothing system.old.cluster system.new.cluster }
    ensures whereabouts { system.new.cluster.whereabouts ≡ system.old.cluster.whereabouts }
{
    let started = section_on(who.own, section);
    if !leaves {
        return returns(given, None, started);
    }
    let Some(monitor) = monitor_of(&system.cluster, who.own) else {
        return returns(given, None, started);
    };
    if !monitor.is_held_by(who.process) {
        return returns(given, None, started);
    }
    let granted = monitors::leave(&mut system.cluster, who.own, who.process);
    returns(given, granted, started)
}

/// The monitor of an object, as the object's node has it.
fn monitor_of(cluster: &Cluster, oid: Oid) -> Option<&Monitor>
    requires { HasObject cluster.now oid }
    ensures some { IfSome result (λ m. MonitorThere cluster.now oid (λ s. MonitorIs s oid m.now)) }
    ensures none { IfNone result (MonitorThere cluster.now oid (λ s. LacksMonitor s oid)) }
{
    let k = node_of(cluster, oid);
    cluster.nodes.at(k as usize).monitor(oid)
}

/// Whether a process holds a monitor, which has a condition of this number.
fn acts_on(monitor: &Monitor, process: Pid, condition: u32) -> bool
    ensures { result ≡ (is_held_by monitor.now process && nat_lt condition (length monitor.now.conditions)) }
{
    monitor.is_held_by(process) && (condition as usize) < monitor.conditions()
}

/// Who asks to enter goes on inside, or waits.
fn entry_effect(own: Oid, entry: Entry) -> Effect
    ensures { result ≡ spec.entry_effect own entry }
{
    match entry {
        Entry::Entered => Effect::GoesOn(None),
        Entry::Queued => Effect::Blocks {
            queue: Queue::ForEntry,
            own,
        },
    }
}

/// The process waits for a condition.
fn waits(own: Oid, granted: Option<Granted>) -> Outcome
    ensures { result ≡ record { effect = Effect.Blocks Queue.ForCondition own; granted = granted; started = None } }
{
    Outcome {
        effect: Effect::Blocks {
            queue: Queue::ForCondition,
            own,
        },
        granted,
        started: None,
    }
}

/// The process waits as one that has signalled where somebody was granted the monitor, and else goes on.
fn signals(own: Oid, granted: Option<Granted>) -> Outcome
    ensures { result ≡ record { effect = spec.signal_effect own granted; granted = granted; started = None } }
{
    match granted {
        Some(next) => Outcome {
            effect: Effect::Blocks {
                queue: Queue::Urgently,
                own,
            },
            granted: Some(next),
            started: None,
        },
        None => goes_on(),
    }
}

/// The activation goes.
fn returns(given: Option<Value>, granted: Option<Granted>, started: Option<Section>) -> Outcome
    ensures { result ≡ record { effect = Effect.Leaves given; granted = granted; started = started } }
{
    Outcome {
        effect: Effect::Leaves(given),
        granted,
        started,
    }
}

/// The section with which a new process begins.
fn section_on(own: Oid, section: Option<OpNo>) -> Option<Section>
    ensures { result ≡ spec.section_on own section }
{
    let operation = section?;
    Some(Section { operation, own })
}
