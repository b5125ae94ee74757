//! Constants of the program, which every node has.
ghost use Rattle.std.specs.Prelude.{◌≡◌, ◌<◌, OnOk, length, slice_set};
ghost use Rattle.ec_cluster.specs.Cluster.{CodeWorld, Shows};
ghost use Rattle.ec_cluster.specs.Steps.{CanDefine, Changes, Everywhere, with_common};

use crate::cluster::Cluster;
use ec_objects::constants::set_constant;
use ec_world::value::Value;
use std::alloc::AllocError;

/// A constant gets its value at every node, which have room for its text. The error is want of memory, or that a node has 2^32 - 1 texts
/// or references; some nodes may then have the value.
pub fn define(cluster: &mut Cluster, index: u32, value: &Value) -> Result<(), AllocError>
    requires { CanDefine cluster.old index value.now }
    ensures changes { OnOk result (Changes (Everywhere value.now) cluster.old cluster.new) }
    ensures whereabouts { cluster.new.whereabouts ≡ cluster.old.whereabouts }
    ensures shows { OnOk result ((w : CodeWorld) → Shows cluster.old w → index < length w.common.globals →
        Shows cluster.new (with_common w (record w.common { globals = slice_set w.common.globals index value.now }))) }
{
    for k in 0..cluster.nodes.len() {
        set_constant(cluster.nodes.at_mut(k), index, value)?;
    }
    Ok(())
}
