//! What nodes lack for blocks and values that come to them.
ghost use Rattle.std.specs.Prelude.{◌≤◌, [], ◌∷◌, IfOk, length};
ghost use Rattle.ec_cluster.specs.Frames.{HasNode};
ghost use Rattle.ec_fullness.specs.Told.{Tells, TellsOfAll};

use ec_cluster::cluster::Cluster;
use ec_cluster::objects::node_of;
use ec_objects::lacks::lack_of;
use ec_world::room::Lack;
use ec_world::value::{Oid, Value};
use std::alloc::{AllocError, Global};
use std::slice::from_ref;

/// What the node of an object lacks for so many blocks and these values to come there; nothing where it has room for all. The error is
/// that of `lack_of`.
pub(crate) fn lack_at(
    cluster: &Cluster,
    alloc: Global,
    oid: Oid,
    blocks: u32,
    values: &[Value],
) -> Result<Option<Lack>, AllocError>
    requires { HasNode cluster.now oid }
    ensures { IfOk result (λ r. Tells cluster.now oid blocks values.now r) }
{
    let k = node_of(cluster, oid);
    lack_of(k, cluster.nodes.at(k as usize), alloc, blocks, values)
}

/// What the least node lacks that has no room for the text of a value; nothing where each node has. The nodes are at most 64. The error is
/// that of `lack_of`.
pub(crate) fn lack_anywhere(
    cluster: &Cluster,
    alloc: Global,
    value: &Value,
) -> Result<Option<Lack>, AllocError>
    requires { length cluster.now.nodes ≤ 64 }
    ensures { IfOk result (λ r. TellsOfAll cluster.now (value.now ∷ []) r) }
{
    for k in 0..cluster.nodes.len() {
        let lack = lack_of(k as u32, cluster.nodes.at(k), alloc, 0, from_ref(value))?;
        if lack.is_some() {
            return Ok(lack);
        }
    }
    Ok(None)
}
