//! The first objects, and the activation of operation 0.
ghost use Rattle.std.specs.Prelude.{◌≡◌, [], List, None, OnOk, Some};
ghost use Rattle.ec_cluster.specs.Cluster.{CodeWorld, place};
ghost use Rattle.ec_cluster.specs.Makings.{with_one};
ghost use Rattle.ec_cluster.specs.declared.cluster.Images.{Images as ImagesData};
ghost use Rattle.ec_cluster.specs.Frames.{HasImages};
ghost use Rattle.ec_code.specs.Typing.{Declared};
ghost use Rattle.ec_code.specs.declared.code.Parts.{Parts as PartsData};
ghost use Rattle.ec_cluster.specs.Located.{Located, made_at};
ghost use Rattle.ec_acts.specs.Loading.{CanBeginFirst, CanMakeAt, IsSet};
ghost use Rattle.ec_acts.specs.Worlds.{with_first};
ghost use Rattle.ec_world.specs.declared.node.NodeSpec.{NodeSpec as NodeSpecData};

use ec_cluster::cluster::Cluster;
use ec_node_frames::begin::begin_frame;
use ec_objects::objects::create_object;
use ec_world::class::ClassNo;
use ec_world::value::{NodeNo, Oid};
use std::alloc::{AllocError, Global};

/// A new object at a node, with the next number, without fields and without a monitor. The error is want of memory.
pub(crate) fn make_at(
    cluster: &mut Cluster,
    alloc: Global,
    node: NodeNo,
    oid: Oid,
    class: ClassNo,
    fixed: bool,
) -> Result<(), AllocError>
    requires { CanMakeAt cluster.old node oid class }
    ensures { OnOk result ((p : PartsData) (images : ImagesData) (specs : List NodeSpecData) (w : CodeWorld) (at : Located) →
        IsSet p images specs w at cluster.old →
        IsSet p images specs (with_one w (record { class = class; fields = []; fixed = fixed; monitor = None })) (made_at at oid node)
        cluster.new) }
{
    cluster.whereabouts.note_made(oid, node)?;
    create_object(
        cluster.nodes.at_mut(node as usize),
        alloc,
        oid,
        class,
        fixed,
        None,
        &[],
    )
}

/// The activation of operation 0 on an object at node 0, as the first of process 0. The error is want of memory.
pub(crate) fn begin_first(cluster: &mut Cluster, alloc: Global, own: Oid) -> Result<(), AllocError>
    requires { CanBeginFirst cluster.old }
    ensures { OnOk result ((d : Declared) (p : PartsData) (images : ImagesData) (specs : List NodeSpecData) (w : CodeWorld) (at : Located) →
        HasImages d cluster.old → IsSet p images specs w at cluster.old → w.processes ≡ [] → place cluster.old own ≡ Some 0 →
        IsSet p images specs (with_first w own) at cluster.new) }
{
    let node = cluster.nodes.at_mut(0);
    let image = cluster.images.of(node.kind());
    let table = image.table.operations.at(0);
    begin_frame(node, alloc, table, 0, 0, 0, own, &[])
}
