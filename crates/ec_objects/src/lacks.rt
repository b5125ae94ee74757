//! What a node lacks.
ghost use Rattle.std.specs.Prelude.{IfOk, IfNone, IfSome};
ghost use Rattle.ec_objects.specs.Lacks.{HasRoomForAll, LacksRoom};
ghost use Rattle.ec_stores.specs.Node.{store_of};

use crate::texts::new_bytes;
use ec_stores::node::NodeStore;
use ec_world::room::{Lack, Needs, lack_at};
use ec_world::value::{NodeNo, Value};
use std::alloc::{AllocError, Global};

/// What a node lacks, blocks before text, for so many blocks and these values to come to it; nothing where it has room for all. The error
/// is that of `new_bytes`.
pub fn lack_of(
    number: NodeNo,
    node: &NodeStore,
    alloc: Global,
    blocks: u32,
    values: &[Value],
) -> Result<Option<Lack>, AllocError>
    ensures some { IfOk result (λ r. IfSome r (λ lack. LacksRoom (store_of node.now) number blocks values.now lack)) }
    ensures none { IfOk result (λ r. IfNone r (HasRoomForAll (store_of node.now) blocks values.now)) }
{
    let bytes = new_bytes(node, alloc, values)?;
    Ok(lack_at(
        number,
        Needs {
            blocks: u64::from(blocks),
            free_blocks: u64::from(node.free_blocks()),
            bytes: u64::from(bytes),
            free_bytes: u64::from(node.text_free()),
        },
    ))
}
