//! Nodes that run a program, the rows of its processes, and what these have written.
use crate::cluster::Cluster;
use ec_base::list::Seq;
use ec_world::process::ProcStatus;
use ec_world::value::Text;

/// How many activations a process has (they are in frames of the nodes, by their depths from 0), and what it may do.
#[derive(Clone, Copy, PartialEq, Eq, Debug)]
pub struct ProcessRow {
    pub activations: u32,
    pub status: ProcStatus,
}

/// Nodes, the rows of processes by their numbers (from 0), and the output so far.
#[derive(Drop)]
pub struct System {
    pub cluster: Cluster,
    pub processes: Seq<ProcessRow>,
    pub output: Text,
}
