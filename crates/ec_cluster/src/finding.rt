//! Where an activation is.
ghost use Rattle.std.specs.Prelude.{IfNone, IfSome};
ghost use Rattle.ec_cluster.specs.Finding.{NoFrame, TellsOf};

use crate::cluster::Cluster;
use ec_node_frames::frames::{Headings, headings_of};
use ec_world::value::Pid;

/// What the headings of an activation say, at whichever node it is; nothing where no node has it. A cluster has at most 64 nodes, each of
/// which is asked once.
pub fn headings_at(cluster: &Cluster, process: Pid, depth: u32) -> Option<Headings>
    ensures some { IfSome result (λ h. TellsOf cluster.now process depth h) }
    ensures none { IfNone result (NoFrame cluster.now process depth) }
{
    for k in 0..cluster.nodes.len() {
        let node = cluster.nodes.at(k);
        if node.has_frame(process, depth) {
            return Some(headings_of(node, process, depth));
        }
    }
    None
}
