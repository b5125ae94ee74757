//! The monitors of objects.
ghost use Rattle.std.specs.Prelude.{◌≡◌, ◌<◌, IfOk, IfSome, IfNone, IsSome, None, OnErr, Some, length};
ghost use Rattle.ec_monitors.specs.Monitors.{dropped, entered, left, signalled, waited};
ghost use Rattle.ec_world.specs.declared.key.Key.TheVariants.{Object as OfObject};
ghost use Rattle.ec_stores.specs.Node.{store_of};
ghost use Rattle.ec_stores.specs.Changes.{Acts, HasMonitor, HoldsMonitor, LacksMonitor, MonitorIs, SameRows, SetsRow, WaitsAtMonitor};
ghost use Rattle.ec_stores.specs.Changes.{with_monitor};

use crate::node::NodeStore;
use ec_monitors::monitor::Monitor;
use ec_monitors::record::{Entry, Granted};
use ec_world::value::{Oid, Pid};
use std::alloc::AllocError;
use std::mem::replace;

impl NodeStore {
    /// The monitor of an object, where the object is here and has one.
    pub fn monitor(&self, oid: Oid) -> Option<&Monitor>
        ensures some { IfSome result (λ m. MonitorIs (store_of self.now) oid m.now) }
        ensures none { IfNone result (LacksMonitor (store_of self.now) oid) }
    {
        match self.objects.get(&oid) {
            Some(row) => row.monitor.as_ref(),
            None => None,
        }
    }

    /// Puts a monitor, or none, in the place of an object's, which is the answer. Takes no memory.
    pub fn replace_monitor(&mut self, oid: Oid, monitor: Option<Monitor>) -> Option<Monitor>
        requires { IsSome ((store_of self.old).row (OfObject oid)) }
        ensures some { IfSome result (λ m. MonitorIs (store_of self.old) oid m) }
        ensures none { IfNone result (LacksMonitor (store_of self.old) oid) }
        ensures sets { SetsRow (store_of self.old) (store_of self.new) (OfObject oid) (with_monitor monitor) }
    {
        match self.objects.get_mut(&oid) {
            Some(row) => replace(&mut row.monitor, monitor),
            None => unreachable!(),
        }
    }

    /// A process enters the monitor of an object, or goes to the end of its entry queue. An error is want of memory, or a depth
    /// that would have more than 32 bits; nothing changes then.
    pub fn enter(&mut self, oid: Oid, process: Pid) -> Result<Entry, AllocError>
        requires { HasMonitor (store_of self.old) oid }
        ensures ok { IfOk result (λ e. Acts (store_of self.old) (store_of self.new) oid (λ m. entered m process) e) }
        ensures err { OnErr result (SameRows (store_of self.old) (store_of self.new)) }
    {
        let mut monitor = self.take_monitor(oid);
        let entry = monitor.enter(process);
        let _ = self.replace_monitor(oid, Some(monitor));
        entry
    }

    /// The holder of the monitor of an object leaves it once. Answers who was granted it.
    pub fn leave(&mut self, oid: Oid, process: Pid) -> Option<Granted>
        requires { HoldsMonitor (store_of self.old) oid process }
        ensures { Acts (store_of self.old) (store_of self.new) oid left result }
    {
        let mut monitor = self.take_monitor(oid);
        let granted = monitor.leave(process);
        let _ = self.replace_monitor(oid, Some(monitor));
        granted
    }

    /// The holder of the monitor of an object waits for a condition. Answers who was granted it.
    pub fn wait(&mut self, oid: Oid, process: Pid, condition: usize) -> Option<Granted>
        requires { WaitsAtMonitor (store_of self.old) oid process condition }
        ensures { Acts (store_of self.old) (store_of self.new) oid (λ m. waited m condition) result }
    {
        let mut monitor = self.take_monitor(oid);
        let granted = monitor.wait(process, condition);
        let _ = self.replace_monitor(oid, Some(monitor));
        granted
    }

    /// The holder of the monitor of an object signals a condition. Answers who was granted it.
    pub fn signal(&mut self, oid: Oid, process: Pid, condition: usize) -> Option<Granted>
        requires { WaitsAtMonitor (store_of self.old) oid process condition }
        ensures { Acts (store_of self.old) (store_of self.new) oid (λ m. signalled m condition) result }
    {
        let mut monitor = self.take_monitor(oid);
        let granted = monitor.signal(process, condition);
        let _ = self.replace_monitor(oid, Some(monitor));
        granted
    }

    /// The holder gives the monitor of an object up, however often it has entered. Answers who was granted it.
    pub fn drop_all(&mut self, oid: Oid, process: Pid) -> Option<Granted>
        requires { HoldsMonitor (store_of self.old) oid process }
        ensures { Acts (store_of self.old) (store_of self.new) oid dropped result }
    {
        let mut monitor = self.take_monitor(oid);
        let granted = monitor.drop_all(process);
        let _ = self.replace_monitor(oid, Some(monitor));
        granted
    }

    // The monitor of an object, which has none until it is put back.
    fn take_monitor(&mut self, oid: Oid) -> Monitor
        requires { HasMonitor (store_of self.old) oid }
        ensures was { MonitorIs (store_of self.old) oid result }
        ensures taken { SetsRow (store_of self.old) (store_of self.new) (OfObject oid) (with_monitor None) }
    {
        match self.replace_monitor(oid, None) {
            Some(monitor) => monitor,
            None => unreachable!(),
        }
    }
}
