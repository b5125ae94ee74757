//! What the node of an object lacks for a new activation on it.
ghost use Rattle.std.specs.Prelude.{◌≡◌, ℕ, slice_get, IfOk, Some};
ghost use Rattle.ec_cluster.specs.Cluster.{place, stores};
ghost use Rattle.ec_cluster.specs.Frames.{HasNode, tables_on};
ghost use Rattle.ec_fullness.specs.Told.{Tells};
ghost use Rattle.ec_node_frames.specs.Beginning as spec;
ghost use Rattle.ec_node_frames.specs.Beginning.{HasEntry};
ghost use Rattle.ec_generate.specs.declared.table.OperationTable.{OperationTable as Table};
ghost use Rattle.ec_things.specs.Store.{Store};
ghost use Rattle.ec_world.specs.declared.node.Kind.{Kind};

use ec_cluster::cluster::Cluster;
use ec_cluster::objects::node_of;
use ec_node_frames::begin::{first_held, first_values};
use ec_objects::lacks::lack_of;
use ec_world::room::Lack;
use ec_world::value::{Oid, OpNo, Value};
use std::alloc::{AllocError, Global};

/// What the node of an object lacks for a new activation of an operation on it, with these arguments: a block, and room for the texts that
/// it holds at its entry. The error is that of `lack_of`.
pub(crate) fn lack_to_start(
    cluster: &Cluster,
    alloc: Global,
    operation: OpNo,
    own: Oid,
    arguments: &[Value],
) -> Result<Option<Lack>, AllocError>
    requires own { HasNode cluster.now own }
    requires entry { (kind : Kind) → (table : Table) × (slice_get (tables_on cluster.now kind) operation ≡ Some table) × HasEntry table }
    ensures { IfOk result (λ r. (k : ℕ) (s : Store) (table : Table) → place cluster.now own ≡ Some k → stores cluster.now k ≡ Some s →
        slice_get (tables_on cluster.now s.kind) operation ≡ Some table →
        Tells cluster.now own 1 (spec.first_values table own arguments.now) r) }
{
    let k = node_of(cluster, own);
    let node = cluster.nodes.at(k as usize);
    let image = cluster.images.of(node.kind());
    let table = image.table.operations.at(operation as usize);
    let live = first_held(alloc, table)?;
    let values = first_values(alloc, live.as_slice(), own, arguments)?;
    lack_of(k, node, alloc, 1, values.as_slice())
}
