//! What is seen of the nodes of a system.
ghost use Rattle.std.specs.Prelude.{◌≡◌};
ghost use Rattle.ec_cluster.specs.Cluster.{CodeWorld};
ghost use Rattle.ec_code.specs.Typing.{Declared};
ghost use Rattle.ec_network.specs.Standing.{Stands, StandsInSome};
ghost use Rattle.ec_cluster.specs.Decoded.{seen_common};
ghost use Rattle.ec_world.specs.Sights.{sight_of};

use ec_cluster::seen::seen::Seen;
use ec_cluster::system::System;

/// The nodes of a system: a reader sees each world in which the system stands.
pub(crate) fn seen(system: &System) -> Seen<'_>
    requires { StandsInSome system.now }
    ensures { (d : Declared) (w : CodeWorld) → Stands d system.now w → sight_of (seen_common result) ≡ sight_of w.common }
{
    Seen::of(&system.cluster)
}
