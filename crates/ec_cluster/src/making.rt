//! New objects.
ghost use Rattle.std.specs.Prelude.{false, OnOk};
ghost use Rattle.ec_cluster.specs.Makings.{CanMake, Made};

use crate::cluster::Cluster;
use crate::objects::node_of;
use ec_monitors::monitor::Monitor;
use ec_objects::objects::create_object;
use ec_world::class::ClassNo;
use ec_world::value::{Oid, Value};
use std::alloc::{AllocError, Global};

/// A new object at the node where its maker is, with the next number and with these fields or elements, for which the node has blocks and
/// room for text. It is not fixed. The error is want of memory, or that the node has 2^32 - 1 texts or references.
pub fn make(
    cluster: &mut Cluster,
    alloc: Global,
    maker: Oid,
    oid: Oid,
    class: ClassNo,
    monitor: Option<Monitor>,
    fields: &[Value],
) -> Result<(), AllocError>
    requires { CanMake cluster.old maker oid class fields.now }
    ensures { OnOk result (Made cluster.old cluster.new maker oid (record {
      class = class;
      fields = fields.now;
      fixed = false;
      monitor = monitor;
    })) }
{
    let k = node_of(cluster, maker);
    cluster.whereabouts.note_made(oid, k)?;
    create_object(
        cluster.nodes.at_mut(k as usize),
        alloc,
        oid,
        class,
        false,
        monitor,
        fields,
    )
}
