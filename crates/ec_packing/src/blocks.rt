//! Blocks of the activations of a parcel.
ghost use Rattle.ec_packing.specs.Blocks.{AreThere, HaveSmallBlocks};
ghost use Rattle.ec_stores.specs.Node.{store_of};
ghost use Rattle.ec_things.specs.Store.{Tidy};

use ec_stores::node::NodeStore;
use ec_wire::parcel::ActivationPart;

/// Each of these activations, which are here, has one of a node's 65,536 blocks, and no two have the same. Nothing is done but to look at
/// the blocks.
pub(crate) fn look_at_blocks(node: &NodeStore, parts: &[ActivationPart])
    requires { AreThere (store_of node.now) parts.now }
    ensures blocks { HaveSmallBlocks (store_of node.now) parts.now }
    ensures tidy { Tidy (store_of node.now) }
{
    let _kind = node.kind();
    for part in parts {
        let _block = node.block_of_frame(part.process, part.depth);
    }
}
