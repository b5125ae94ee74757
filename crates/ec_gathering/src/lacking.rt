//! What a node lacks for the parcels of a group.
ghost use Rattle.std.specs.Prelude.{◌≡◌, ◌<◌, IfNone, IfOk, IfSome, Some, length, map};
ghost use Rattle.ec_cluster.specs.Cluster.{stores};
ghost use Rattle.ec_gathering.specs.Shipping as shipping;
ghost use Rattle.ec_packing.specs.Room.{AreOfClasses};
ghost use Rattle.ec_parcels.specs.Owners.{all_blocks, all_values};
ghost use Rattle.ec_objects.specs.Lacks.{HasRoomForAll, LacksRoom};
ghost use Rattle.ec_things.specs.Store.{Store};

use crate::shipping::Shipment;
use ec_cluster::cluster::Cluster;
use ec_packing::room::lack_for;
use ec_parcels::mover::classes::ClassNumbers;
use ec_wire::parcel::Parcel;
use ec_world::room::Lack;
use ec_world::value::NodeNo;
use std::alloc::{AllocError, Global};

/// What a node lacks for these parcels to come to it, blocks before text; nothing where it has room for all of them together. The error
/// is want of memory, texts of 2^32 bytes or more together, or 2^64 blocks or more.
pub(crate) fn lack_of(
    cluster: &Cluster,
    alloc: Global,
    numbers: &ClassNumbers,
    shipments: &[Shipment],
    to: NodeNo,
) -> Result<Option<Lack>, AllocError>
    requires there { to < length cluster.now.nodes }
    requires classed { AreOfClasses numbers.now (shipping.parcels_of shipments.now) }
    ensures some { (s : Store) → stores cluster.now to ≡ Some s → IfOk result (λ r. IfSome r (λ lack. LacksRoom s to
        (all_blocks numbers.now (shipping.parcels_of shipments.now)) (all_values (shipping.parcels_of shipments.now)) lack)) }
    ensures none { (s : Store) → stores cluster.now to ≡ Some s → IfOk result (λ r. IfNone r (HasRoomForAll s
        (all_blocks numbers.now (shipping.parcels_of shipments.now)) (all_values (shipping.parcels_of shipments.now)))) }
{
    let parcels = parcels_of(alloc, shipments)?;
    lack_for(
        cluster.nodes.at(to as usize),
        to,
        alloc,
        numbers,
        parcels.as_slice(),
    )
}

/// The parcels of shipments. The error is want of memory.
fn parcels_of<'a>(alloc: Global, shipments: &'a [Shipment]) -> Result<Vec<&'a Parcel>, AllocError>
    ensures { IfOk result (λ parcels. map (λ p. p.now) parcels.items ≡ shipping.parcels_of shipments.entry.now) }
{
    let mut parcels = Vec::new(alloc);
    for shipment in shipments {
        parcels.push(&shipment.parcel)?;
    }
    Ok(parcels)
}
