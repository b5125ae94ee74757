//! The own object of an activation, wherever it is.
ghost use Rattle.std.specs.Prelude.{◌≡◌, Some, slice_get};
ghost use Rattle.ec_cluster.specs.Cluster.{CodeWorld, Shows};
ghost use Rattle.ec_code.specs.declared.activation.CodeActivation.{CodeActivation};
ghost use Rattle.ec_acts.specs.Taking.{HasActivation};
ghost use Rattle.ec_world.specs.declared.process.Proc.{Proc};

use ec_cluster::cluster::Cluster;
use ec_cluster::finding::headings_at;
use ec_world::value::{Oid, Pid};

/// The own object of an activation, by its process and its depth (from 0).
pub(crate) fn own_at(cluster: &Cluster, process: Pid, depth: u32) -> Oid
    requires { HasActivation cluster.now process depth }
    ensures { (w : CodeWorld) (proc : Proc CodeActivation) (a : CodeActivation) → Shows cluster.now w →
        slice_get w.processes process ≡ Some proc → slice_get proc.activations depth ≡ Some a → result ≡ a.own }
{
    match headings_at(cluster, process, depth) {
        Some(headings) => headings.own,
        None => unreachable!(),
    }
}
