//! Monitors of objects at a node.
ghost use Rattle.std.specs.Prelude.{IfOk};
ghost use Rattle.ec_monitors.specs.Monitors.{dropped, entered, left, signalled, waited};
ghost use Rattle.ec_objects.specs.Acts.{ActsOn};
ghost use Rattle.ec_stores.specs.Changes.{HasMonitor, HoldsMonitor, WaitsAtMonitor};
ghost use Rattle.ec_stores.specs.Node.{store_of};
ghost use Rattle.ec_things.specs.Texts.{GetsTexts, NoTexts};
ghost use Rattle.std.specs.Prelude.{OnOk};

use ec_monitors::record::{Entry, Granted};
use ec_stores::node::NodeStore;
use ec_world::value::{Oid, Pid};
use std::alloc::AllocError;

/// A process enters the monitor of an object, or goes to the end of its entry queue. An error is want of memory, or a depth that would
/// have more than 32 bits.
pub fn enter(node: &mut NodeStore, oid: Oid, process: Pid) -> Result<Entry, AllocError>
    requires { HasMonitor (store_of node.old) oid }
    ensures acts { IfOk result (λ e. ActsOn (store_of node.old) (store_of node.new) oid (λ m. entered m process) e) }
    ensures gets { OnOk result (GetsTexts NoTexts (store_of node.old) (store_of node.new)) }
{
    let entry = node.enter(oid, process)?;
    let _kind = node.kind();
    Ok(entry)
}

/// The holder of the monitor of an object leaves it once. Answers who was granted it.
pub fn leave(node: &mut NodeStore, oid: Oid, process: Pid) -> Option<Granted>
    requires { HoldsMonitor (store_of node.old) oid process }
    ensures acts { ActsOn (store_of node.old) (store_of node.new) oid left result }
    ensures gets { GetsTexts NoTexts (store_of node.old) (store_of node.new) }
{
    let granted = node.leave(oid, process);
    let _kind = node.kind();
    granted
}

/// The holder of the monitor of an object waits for a condition. Answers who was granted it.
pub fn wait(node: &mut NodeStore, oid: Oid, process: Pid, condition: usize) -> Option<Granted>
    requires { WaitsAtMonitor (store_of node.old) oid process condition }
    ensures acts { ActsOn (store_of node.old) (store_of node.new) oid (λ m. waited m condition) result }
    ensures gets { GetsTexts NoTexts (store_of node.old) (store_of node.new) }
{
    let granted = node.wait(oid, process, condition);
    let _kind = node.kind();
    granted
}

/// The holder of the monitor of an object signals a condition. Answers who was granted it.
pub fn signal(node: &mut NodeStore, oid: Oid, process: Pid, condition: usize) -> Option<Granted>
    requires { WaitsAtMonitor (store_of node.old) oid process condition }
    ensures acts { ActsOn (store_of node.old) (store_of node.new) oid (λ m. signalled m condition) result }
    ensures gets { GetsTexts NoTexts (store_of node.old) (store_of node.new) }
{
    let granted = node.signal(oid, process, condition);
    let _kind = node.kind();
    granted
}

/// The holder gives the monitor of an object up, however often it has entered. Answers who was granted it.
pub fn drop_all(node: &mut NodeStore, oid: Oid, process: Pid) -> Option<Granted>
    requires { HoldsMonitor (store_of node.old) oid process }
    ensures acts { ActsOn (store_of node.old) (store_of node.new) oid dropped result }
    ensures gets { GetsTexts NoTexts (store_of node.old) (store_of node.new) }
{
    let granted = node.drop_all(oid, process);
    let _kind = node.kind();
    granted
}
