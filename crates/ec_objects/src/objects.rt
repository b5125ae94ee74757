//! Objects come to a node.
ghost use Rattle.std.specs.Prelude.{◌≡◌, ◌≤◌, ◌<◌, ◌*◌, ◌^◌, length, None, OnOk, Some};
ghost use Rattle.ec_world.specs.Things as spec;
ghost use Rattle.ec_world.specs.declared.key.Key.TheVariants.{Object as OfObject};
ghost use Rattle.ec_objects.specs.Values.{HasRoom, TextsFit};
ghost use Rattle.ec_stores.specs.Changes.{OwnsWord};
ghost use Rattle.ec_stores.specs.Node.{store_of};
ghost use Rattle.ec_things.specs.Texts.{GetsTexts};
ghost use Rattle.ec_things.specs.Things.{Puts, Shown, object_thing};
ghost use Rattle.ec_world.specs.Group.{Has};
ghost use Rattle.ec_world.specs.Outcomes.{with_element};
ghost use Rattle.ec_world.specs.declared.value.Value.TheVariants.{Str};
ghost use Rattle.ec_world.specs.declared.object.ObjectRec.{ObjectRec};

use crate::values::{word_for, words_for};
use ec_monitors::monitor::Monitor;
use ec_stores::node::NodeStore;
use ec_world::class::ClassNo;
use ec_world::value::{Oid, Value};
use std::alloc::{AllocError, Global};

/// A new object, with these fields or elements, for which the node has blocks and room for text. The error is want of memory, or
/// that the node has 2^32 - 1 texts or references; what it keeps is then left open.
pub fn create_object(
    node: &mut NodeStore,
    alloc: Global,
    oid: Oid,
    class: ClassNo,
    fixed: bool,
    monitor: Option<Monitor>,
    fields: &[Value],
) -> Result<(), AllocError>
    requires new { (store_of node.old).row (OfObject oid) ≡ None }
    requires blocks { spec.class_blocks class (length fields.now) ≤ (store_of node.old).free }
    requires few { length fields.now ≤ 128 * spec.class_blocks class (length fields.now) }
    requires small { length fields.now < 2 ^ 32 }
    requires texts { TextsFit (store_of node.old) fields.now }
    ensures puts { OnOk result (Puts (store_of node.old) (store_of node.new) (OfObject oid)
        (Some (object_thing oid (record { class = class; fields = fields.now; fixed = fixed; monitor = monitor })))) }
    ensures gets { OnOk result (GetsTexts (λ text. Has fields.now (Str text)) (store_of node.old) (store_of node.new)) }
{
    let words = words_for(node, alloc, fields)?;
    node.create(
        oid,
        class,
        fields.len() as u32,
        fixed,
        monitor,
        words.as_slice(),
    )
}

/// A field or an element of an object that is here gets a value, for whose text the node has room. The error is want of memory, or
/// that the node has 2^32 - 1 texts or references.
pub fn set_field(
    node: &mut NodeStore,
    oid: Oid,
    field: u32,
    value: &Value,
) -> Result<(), AllocError>
    requires owns { OwnsWord (store_of node.old) (OfObject oid) field }
    requires text { HasRoom (store_of node.old) value.now }
    ensures puts { OnOk result ((o : ObjectRec) → Shown (store_of node.old) (OfObject oid) (object_thing oid o) → field < length o.fields →
        Puts (store_of node.old) (store_of node.new) (OfObject oid) (Some (object_thing oid (with_element field value.now o)))) }
    ensures gets { OnOk result (GetsTexts (λ text. value.now ≡ Str text) (store_of node.old) (store_of node.new)) }
{
    let word = word_for(node, value)?;
    node.set_object_word(oid, field, word);
    Ok(())
}
