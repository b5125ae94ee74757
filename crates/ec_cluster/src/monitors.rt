//! Acts on the monitors of objects at their nodes.
ghost use Rattle.std.specs.Prelude.{◌≡◌, IfOk, OnOk};
ghost use Rattle.ec_cluster.specs.Cluster.{CodeWorld, Shows};
ghost use Rattle.ec_cluster.specs.Steps.{Changes, HasObject, MonitorActs, MonitorThere, Nothing};
ghost use Rattle.ec_monitors.specs.Monitors.{dropped, entered, left, signalled, waited};
ghost use Rattle.ec_stores.specs.Changes.{HasMonitor, HoldsMonitor, WaitsAtMonitor};

use crate::cluster::Cluster;
use crate::objects::node_of;
use ec_monitors::record::{Entry, Granted};
use ec_objects::monitors;
use ec_world::value::{Oid, Pid};
use std::alloc::AllocError;

/// A process enters the monitor of an object, or goes to the end of its entry queue. An error is want of memory, or a depth that would
/// have more than 32 bits.
pub fn enter(cluster: &mut Cluster, oid: Oid, process: Pid) -> Result<Entry, AllocError>
    requires there { HasObject cluster.old oid }
    requires monitor { MonitorThere cluster.old oid (λ s. HasMonitor s oid) }
    ensures changes { OnOk result (Changes Nothing cluster.old cluster.new) }
    ensures whereabouts { cluster.new.whereabouts ≡ cluster.old.whereabouts }
    ensures acts { IfOk result (λ e. (w : CodeWorld) → Shows cluster.old w → MonitorActs cluster.new w oid (λ m. entered m process) e) }
{
    let k = node_of(cluster, oid);
    monitors::enter(cluster.nodes.at_mut(k as usize), oid, process)
}

/// The holder of the monitor of an object leaves it once. Answers who was granted it.
pub fn leave(cluster: &mut Cluster, oid: Oid, process: Pid) -> Option<Granted>
    requires there { HasObject cluster.old oid }
    requires holds { MonitorThere cluster.old oid (λ s. HoldsMonitor s oid process) }
    ensures changes { Changes Nothing cluster.old cluster.new }
    ensures whereabouts { cluster.new.whereabouts ≡ cluster.old.whereabouts }
    ensures acts { (w : CodeWorld) → Shows cluster.old w → MonitorActs cluster.new w oid left result }
{
    let k = node_of(cluster, oid);
    monitors::leave(cluster.nodes.at_mut(k as usize), oid, process)
}

/// The holder of the monitor of an object waits for a condition. Answers who was granted it.
pub fn wait(cluster: &mut Cluster, oid: Oid, process: Pid, condition: usize) -> Option<Granted>
    requires there { HasObject cluster.old oid }
    requires waits { MonitorThere cluster.old oid (λ s. WaitsAtMonitor s oid process condition) }
    ensures changes { Changes Nothing cluster.old cluster.new }
    ensures whereabouts { cluster.new.whereabouts ≡ cluster.old.whereabouts }
    ensures acts { (w : CodeWorld) → Shows cluster.old w → MonitorActs cluster.new w oid (λ m. waited m condition) result }
{
    let k = node_of(cluster, oid);
    monitors::wait(cluster.nodes.at_mut(k as usize), oid, process, condition)
}

/// The holder of the monitor of an object signals a condition. Answers who was granted it.
pub fn signal(cluster: &mut Cluster, oid: Oid, process: Pid, condition: usize) -> Option<Granted>
    requires there { HasObject cluster.old oid }
    requires waits { MonitorThere cluster.old oid (λ s. WaitsAtMonitor s oid process condition) }
    ensures changes { Changes Nothing cluster.old cluster.new }
    ensures whereabouts { cluster.new.whereabouts ≡ cluster.old.whereabouts }
    ensures acts { (w : CodeWorld) → Shows cluster.old w → MonitorActs cluster.new w oid (λ m. signalled m condition) result }
{
    let k = node_of(cluster, oid);
    monitors::signal(cluster.nodes.at_mut(k as usize), oid, process, condition)
}

/// The holder gives the monitor of an object up, however often it has entered. Answers who was granted it.
pub fn drop_all(cluster: &mut Cluster, oid: Oid, process: Pid) -> Option<Granted>
    requires there { HasObject cluster.old oid }
    requires holds { MonitorThere cluster.old oid (λ s. HoldsMonitor s oid process) }
    ensures changes { Changes Nothing cluster.old cluster.new }
    ensures whereabouts { cluster.new.whereabouts ≡ cluster.old.whereabouts }
    ensures acts { (w : CodeWorld) → Shows cluster.old w → MonitorActs cluster.new w oid dropped result }
{
    let k = node_of(cluster, oid);
    monitors::drop_all(cluster.nodes.at_mut(k as usize), oid, process)
}
