//! An activation comes from another node: its frame is made.
ghost use Rattle.std.specs.Prelude.{◌≡◌, ◌<◌, ◌∷◌, length, if◌then◌else◌, IfOk, None, OnOk, Some};
ghost use Rattle.ec_node_frames.specs.Arriving.{Arrives};
ghost use Rattle.ec_node_frames.specs.Carried as spec;
ghost use Rattle.ec_node_frames.specs.Frames.{IsFrame};
ghost use Rattle.ec_node_frames.specs.Spelled.{HaveHomes, frame_by};
ghost use Rattle.ec_world.specs.declared.key.Key.TheVariants.{Frame as OfFrame};
ghost use Rattle.ec_objects.specs.Values.{HasWords, TextsFit};
ghost use Rattle.ec_stores.specs.Node.{store_of};
ghost use Rattle.ec_things.specs.Texts.{GetsTexts};
ghost use Rattle.ec_things.specs.Things.{Puts};
ghost use Rattle.ec_world.specs.Group.{Has};
ghost use Rattle.ec_world.specs.declared.value.Value.TheVariants.{Ref, Str};

use crate::carried::carried;
use crate::frames::{Headings, filled};
use ec_generate::table::{OperationTable, StopEntry};
use ec_objects::values::{word_for, words_for};
use ec_stores::node::NodeStore;
use ec_world::value::{Oid, Pid, Value};
use std::alloc::{AllocError, Global};

/// An activation comes to this node, into a free block: `headings` are those of its frame at the node that it left, `table` is that of
/// its operation for the kind of this node, `entry` is the stop of that table at which it rests, and `values` are what it holds there,
/// as `carried_values` gives them. The node has room for their texts. The error is want of memory, or that the node has 2^32 - 1 texts
/// or references; what it keeps is then left open.
pub fn arrive(
    node: &mut NodeStore,
    alloc: Global,
    table: &OperationTable,
    entry: &StopEntry,
    process: Pid,
    depth: u32,
    headings: Headings,
    values: &[Value],
) -> Result<(), AllocError>
    requires new { (store_of node.old).row (OfFrame process depth) ≡ None }
    requires room { 0 < (store_of node.old).free }
    requires many { length values.now ≡ length (spec.carried entry.now headings.pending) }
    requires texts { TextsFit (store_of node.old) (Ref headings.own ∷ values.now) }
    ensures puts { OnOk result
        (Arrives (store_of node.old) (store_of node.new) table.now entry.now process depth headings values.now) }
    ensures spelled { OnOk result (HaveHomes table.now (spec.carried entry.now headings.pending) values.now →
        Puts (store_of node.old) (store_of node.new) (OfFrame process depth)
        (Some (frame_by table.now entry.now process depth headings values.now))) }
    ensures gets { OnOk result (GetsTexts (λ text. Has (Ref headings.own ∷ values.now) (Str text))
        (store_of node.old) (store_of node.new)) }
    ensures here { OnOk result (IsFrame (store_of node.new) process depth) }
{
    let live = carried(alloc, entry, headings.pending)?;
    let held = live.as_slice();
    let made = words_with_own(node, alloc, headings.own, values)?;
    let words = made.as_slice();
    let pending = pending_word(headings.pending);
    let heads = [
        process,
        depth,
        headings.operation,
        headings.stop,
        pending,
        headings.own,
        words[0],
    ];
    let frame = filled(alloc, table, held, words, &heads)?;
    node.begin(process, depth, headings.own, frame.as_slice())
}

/// The heading that says whether the action is pending.
fn pending_word(pending: bool) -> u32
    ensures { result ≡ (if pending then 1 else 0) }
{
    if pending {
        return 1;
    }
    0
}

/// The word of the node's own reference to the object of an activation, and then those of its values.
fn words_with_own(
    node: &mut NodeStore,
    alloc: Global,
    own: Oid,
    values: &[Value],
) -> Result<Vec<u32>, AllocError>
    requires { TextsFit (store_of node.old) (Ref own ∷ values.now) }
    ensures { IfOk result (λ words. HasWords (store_of node.old) (store_of node.new) (Ref own ∷ values.now) words.items) }
{
    let own_word = word_for(node, &Value::Ref(own))?;
    let others = words_for(node, alloc, values)?;
    let mut words = Vec::from_slice(alloc, &[own_word])?;
    words.extend_from_slice(others.as_slice())?;
    Ok(words)
}
