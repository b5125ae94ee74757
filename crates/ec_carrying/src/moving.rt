//! Objects go from one node to another, and this is noted.
ghost use Rattle.std.specs.Prelude.{◌≡◌, ◌≢◌, ◌<◌, ◌-◌, ◌^◌, ℕ, IsSome, OnOk, Some};
ghost use Rattle.ec_carrying.specs.Moves.{AreAll, NotAny};
ghost use Rattle.ec_cluster.specs.Located.{Located, moved_to};
ghost use Rattle.ec_cluster.specs.Whereabouts.{FewElsewhere, Gives, WentTo, made_count, moves_of, place_at};
ghost use Rattle.ec_world.specs.Held.{Distinct};
ghost use Rattle.ec_parcels.specs.Owners.{object_keys};

use ec_base::list::Seq;
use ec_cluster::forward::whereabouts::Whereabouts;
use ec_wire::parcel::ObjectPart;
use ec_world::value::{NodeNo, Oid};
use std::alloc::AllocError;

/// Notes that objects, none of which stands twice, went from the node where they all were to another, each by one move more. The other
/// node looks for each of them first, so that it and the nodes on the way know where the object is. The error is want of memory; some may
/// then be noted at the other node.
pub(crate) fn note_moves(
    whereabouts: &mut Whereabouts,
    from: NodeNo,
    to: NodeNo,
    objects: &Seq<ObjectPart>,
) -> Result<(), AllocError>
    requires once { Distinct (object_keys objects.now) }
    requires there { AreAll whereabouts.old objects.now from }
    requires apart { to ≢ from }
    requires few { FewElsewhere to whereabouts.old }
    ensures there { OnOk result (AreAll whereabouts.new objects.now to) }
    ensures others { OnOk result ((oid : ℕ) →
        NotAny objects.now oid → place_at whereabouts.new oid ≡ place_at whereabouts.old oid) }
    ensures count { OnOk result (made_count whereabouts.new ≡ made_count whereabouts.old) }
    ensures went { OnOk result (WentTo to whereabouts.old whereabouts.new) }
{
    for i in 0..objects.len() {
        note_arrival(whereabouts, objects.at(i).number, to)?;
    }
    Ok(())
}

/// Notes that an object came to a node, which looks for it first. The error is want of memory.
fn note_arrival(whereabouts: &mut Whereabouts, oid: Oid, to: NodeNo) -> Result<(), AllocError>
    requires there { IsSome (place_at whereabouts.old oid) }
    requires few { moves_of whereabouts.old oid < 2 ^ 64 - 1 }
    ensures { OnOk result ((w : Located) (from : ℕ) →
        Gives whereabouts.old w → place_at whereabouts.old oid ≡ Some from → Gives whereabouts.new (moved_to w oid from to)) }
{
    let (from, _) = whereabouts.find(to, oid)?;
    whereabouts.note_move(oid, from, to)
}
