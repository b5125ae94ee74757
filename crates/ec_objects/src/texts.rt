//! The bytes of texts that are new at a node.
ghost use Rattle.std.specs.Prelude.{◌≡◌, ◌≢◌, ◌-◌, ◌≤◌, ◌++◌, [], ◌∷◌, ℕ, IfOk, OnOk, Some, length, slice_get};
ghost use Rattle.ec_objects.specs.Texts.{Notes};
ghost use Rattle.ec_stores.specs.Node.{store_of};
ghost use Rattle.ec_things.specs.Texts.{NewBytes};
ghost use Rattle.ec_world.specs.Group.{Has};
ghost use Rattle.ec_world.specs.declared.value.Value.TheVariants.{Str};

use ec_stores::node::NodeStore;
use ec_stores::pool::Pool;
use ec_world::value::{Text, Value, copy_text};
use std::alloc::{AllocError, Global};

/// How many bytes the texts of these values have that the node doesn't have, each text once. The error is want of memory, or that they
/// have 2^32 bytes or more.
pub fn new_bytes(node: &NodeStore, alloc: Global, values: &[Value]) -> Result<u32, AllocError>
    ensures { IfOk result (λ n. NewBytes (λ text. Has values.now (Str text)) (store_of node.now) n) }
{
    let mut seen = Pool::new(alloc, 0xFFFF_FFFF);
    for i in 0..values.len() {
        note(node, &mut seen, &values[i])?;
    }
    Ok(0xFFFF_FFFF - seen.free())
}

/// Notes the text of a value, where it is neither the node's nor noted already. The error is want of memory, or that there is no room
/// for it.
fn note(node: &NodeStore, seen: &mut Pool, value: &Value) -> Result<(), AllocError>
    ensures { OnOk result (Notes (store_of node.now) seen.old seen.new value.now) }
{
    let Value::Str(text) = value else {
        return Ok(());
    };
    if node.has_text(text) {
        return Ok(());
    }
    match seen.find(text.as_slice()) {
        Some(_) => Ok(()),
        None => keep(seen, text),
    }
}

/// Keeps a text that isn't there. The error is want of memory, or that there is no room for it.
fn keep(seen: &mut Pool, text: &Text) -> Result<(), AllocError>
    requires { (i : ℕ) → slice_get seen.old.texts i ≢ Some text.now }
    ensures room { OnOk result (length text.now ≤ seen.old.free) }
    ensures kept { OnOk result (seen.new ≡
        record { texts = seen.old.texts ++ text.now ∷ []; room = seen.old.room; free = seen.old.free - length text.now }) }
{
    if text.len() > seen.free() as usize {
        return Err(AllocError);
    }
    seen.add(copy_text(text)?)?;
    Ok(())
}
