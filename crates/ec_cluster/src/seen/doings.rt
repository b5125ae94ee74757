//! What actions on nodes come to.
ghost use Rattle.std.specs.Prelude.{◌≡◌, IfOk};
ghost use Rattle.ec_cluster.specs.Cluster.{CodeWorld};
ghost use Rattle.ec_cluster.specs.Seeing.{CanBeSeen, ShowsProgram};
ghost use Rattle.ec_world.specs.Doings.{doing_of};
ghost use Rattle.ec_world.specs.Sights.{sight_of};

use crate::cluster::Cluster;
use crate::seen::seen::Seen;
use ec_world::doing::Doing;
use ec_world::doings::doing;
use ec_world::stop::{Stop, Who};
use ec_world::value::Values;
use std::alloc::{AllocError, Global};

/// What the action of a stop comes to on nodes: what it comes to in the world that they show. The error is that of `doing`.
pub fn doing_on(
    alloc: Global,
    cluster: &Cluster,
    who: Who,
    stop: Stop,
    operands: Values,
) -> Result<Option<Doing>, AllocError>
    requires { CanBeSeen cluster.now }
    ensures { IfOk result (λ d. (w : CodeWorld) → ShowsProgram cluster.now w → d ≡ doing_of (sight_of w.common) who stop operands) }
{
    let seen = Seen::of(cluster);
    doing(alloc, &seen, who, stop, operands)
}
