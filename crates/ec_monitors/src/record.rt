//! A monitor as data, and what an act answers.
use ec_base::list::Seq;

/// A process that holds a monitor, or waits with the depth at which it held it. Depths are at least 1.
#[derive(Clone, Copy, PartialEq, Eq, Debug)]
pub struct Hold {
    pub process: u32,
    pub depth: u32,
}

/// A monitor: its holder, its entry queue (first in, first out), its urgent stack (bottom first), and a queue for each
/// condition.
#[derive(Drop)]
pub struct MonitorRec {
    pub holder: Option<Hold>,
    pub entry: Seq<u32>,
    pub urgent: Seq<Hold>,
    pub conditions: Seq<Seq<Hold>>,
}

/// Whether a process that asked to enter holds the monitor now, or waits in the entry queue.
#[derive(Clone, Copy, PartialEq, Eq, Debug)]
pub enum Entry {
    Entered,
    Queued,
}

/// The process that an act gave the monitor to.
#[derive(Clone, Copy, PartialEq, Eq, Debug)]
pub struct Granted {
    pub process: u32,
}
