//! The monitors that a process which fails gives up.
ghost use Rattle.std.specs.Prelude.{◌≡◌, ◌++◌, [], IfOk, List, MatchBool, OnOk, ℕ};
ghost use Rattle.ec_cluster.specs.Cluster.{CodeWorld, Shows};
ghost use Rattle.ec_cluster.specs.Steps.{Changes, HasObject, MonitorThere, Nothing};
ghost use Rattle.ec_code.specs.Activations.{code_meaning};
ghost use Rattle.ec_code.specs.declared.activation.CodeActivation.{CodeActivation};
ghost use Rattle.ec_acts.specs.Taking.{GivesUp, LeavesAlone, ShowsSomeTop, ShowsTop, with_objects};
ghost use Rattle.ec_stores.specs.Changes.{HoldsMonitor};
ghost use Rattle.ec_cluster.specs.SystemSteps.{CanTake};
ghost use Rattle.ec_world.specs.Outcomes.{all_granted, dropped_at, dropped_each};
ghost use Rattle.ec_world.specs.World as spec;

use crate::seeking::own_at;
use ec_base::list::Seq;
use ec_cluster::cluster::Cluster;
use ec_cluster::monitors::drop_all;
use ec_monitors::record::Granted;
use ec_world::stop::{Effect, Who};
use ec_world::value::{Oid, Oids, Pid};
use std::alloc::{AllocError, Global};

/// A process that fails gives up the monitors that it holds, that of its activation on top first; another effect changes nothing. Answers
/// whom this grants one. The error is want of memory.
pub(crate) fn give_up(
    cluster: &mut Cluster,
    alloc: Global,
    who: Who,
    effect: &Effect,
) -> Result<Seq<Pid>, AllocError>
    requires { ShowsSomeTop cluster.old who }
    ensures gives { IfOk result (λ freed. (w : CodeWorld) (below : List CodeActivation) (top : CodeActivation) →
        ShowsTop cluster.old w below top who →
        GivesUp cluster.new w who.process (spec.owns_of code_meaning below top) effect.now freed) }
    ensures changes { OnOk result (Changes Nothing cluster.old cluster.new) }
    ensures whereabouts { cluster.new.whereabouts ≡ cluster.old.whereabouts }
    ensures takes { (p : ℕ) (below : List CodeActivation) (top : CodeActivation) →
        CanTake cluster.old p below top effect.now → CanTake cluster.new p below top effect.now }
{
    match effect {
        Effect::Fails { .. } => {
            let owns = owns_of(cluster, alloc, who)?;
            drop_each(cluster, alloc, who.process, owns.as_slice())
        }
        Effect::GoesOn(_)
        | Effect::Calls { .. }
        | Effect::Leaves(_)
        | Effect::Blocks { .. }
        | Effect::Ends => { Ok(Seq::new(alloc)) }
    }
}

/// The own objects of the activations of a process, that of the one on top first. The error is want of memory.
fn owns_of(cluster: &Cluster, alloc: Global, who: Who) -> Result<Oids, AllocError>
    requires { ShowsSomeTop cluster.now who }
    ensures { IfOk result (λ owns. (w : CodeWorld) (below : List CodeActivation) (top : CodeActivation) →
        ShowsTop cluster.now w below top who → owns ≡ spec.owns_of code_meaning below top) }
{
    let mut owns = Seq::new(alloc);
    owns.push(who.own)?;
    for i in 0..who.depth {
        owns.push(own_at(cluster, who.process, who.depth - 1 - i))?;
    }
    Ok(owns)
}

/// The monitors of these objects that a process holds are given up, one after the other. Answers whom this grants one. The error is want
/// of memory.
fn drop_each(
    cluster: &mut Cluster,
    alloc: Global,
    process: Pid,
    owns: &[Oid],
) -> Result<Seq<Pid>, AllocError>
    ensures shows { IfOk result (λ freed. (w : CodeWorld) → Shows cluster.old w →
        Shows cluster.new (with_objects w (dropped_each process owns.now w.common.objects).0)
        × (freed ≡ (dropped_each process owns.now w.common.objects).1)) }
    ensures changes { OnOk result (Changes Nothing cluster.old cluster.new) }
    ensures whereabouts { cluster.new.whereabouts ≡ cluster.old.whereabouts }
{
    let mut freed = Seq::new(alloc);
    for own in owns {
        let granted = drop_at(cluster, process, *own);
        push_granted(&mut freed, granted)?;
    }
    Ok(freed)
}

/// One more process that was granted a monitor, if any. The error is want of memory.
fn push_granted(freed: &mut Seq<Pid>, granted: Option<Granted>) -> Result<(), AllocError>
    ensures { OnOk result (freed.new ≡ freed.old ++ all_granted granted []) }
{
    match granted {
        Some(granted) => freed.push(granted.process),
        None => Ok(()),
    }
}

/// The monitor of an object, where a process holds it, is given up whole.
fn drop_at(cluster: &mut Cluster, process: Pid, oid: Oid) -> Option<Granted>
    ensures shows { (w : CodeWorld) → Shows cluster.old w →
        Shows cluster.new (with_objects w (dropped_at w.common.objects process oid).0)
        × (result ≡ (dropped_at w.common.objects process oid).1) }
    ensures changes { Changes Nothing cluster.old cluster.new }
    ensures whereabouts { cluster.new.whereabouts ≡ cluster.old.whereabouts }
{
    if holds(cluster, process, oid) {
        drop_all(cluster, oid, process)
    } else {
        None
    }
}

/// Whether a process holds the monitor of an object. It holds none of an object that isn't there or has no monitor.
fn holds(cluster: &Cluster, process: Pid, oid: Oid) -> bool
    ensures { MatchBool result
        (HasObject cluster.now oid × MonitorThere cluster.now oid (λ s. HoldsMonitor s oid process))
        ((w : CodeWorld) → Shows cluster.now w → LeavesAlone w.common.objects process oid) }
{
    let Some(k) = cluster.whereabouts.place(oid) else {
        return false;
    };
    let Some(node) = cluster.nodes.get(k as usize) else {
        return false;
    };
    match node.monitor(oid) {
        Some(monitor) => monitor.is_held_by(process),
        None => false,
    }
}
