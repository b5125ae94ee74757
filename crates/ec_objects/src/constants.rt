//! Constants at a node.
ghost use Rattle.std.specs.Prelude.{◌≡◌, IsSome, OnOk};
ghost use Rattle.ec_objects.specs.Values.{HasRoom};
ghost use Rattle.ec_stores.specs.Node.{store_of};
ghost use Rattle.ec_things.specs.Changes.{PutsGlobal};
ghost use Rattle.ec_things.specs.Texts.{GetsTexts};
ghost use Rattle.ec_world.specs.declared.value.Value.TheVariants.{Str};

use crate::values::word_for;
use ec_stores::node::NodeStore;
use ec_world::value::Value;
use std::alloc::AllocError;

/// A constant gets a value, for whose text the node has room. The error is want of memory, or that the node has 2^32 - 1 texts or
/// references.
pub fn set_constant(node: &mut NodeStore, index: u32, value: &Value) -> Result<(), AllocError>
    requires there { IsSome ((store_of node.old).global index) }
    requires text { HasRoom (store_of node.old) value.now }
    ensures puts { OnOk result (PutsGlobal (store_of node.old) (store_of node.new) index value.now) }
    ensures gets { OnOk result (GetsTexts (λ text. value.now ≡ Str text) (store_of node.old) (store_of node.new)) }
{
    let word = word_for(node, value)?;
    node.set_global(index, word);
    let _kind = node.kind();
    Ok(())
}
