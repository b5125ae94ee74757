//! What an object on nodes is attached to.
ghost use Rattle.std.specs.Prelude.{◌≡◌, ◌++◌, [], IfOk, IsSome, OnOk, Some, option_to_list};
ghost use Rattle.ec_objects.specs.Values as words;
ghost use Rattle.ec_cluster.specs.Decoded.{seen_common};
ghost use Rattle.ec_stores.specs.Node.{store_of};
ghost use Rattle.ec_world.specs.Group.{link_of, links_of};
ghost use Rattle.ec_world.specs.declared.value.Value.{Value};

use crate::seen::seen::Seen;
use ec_stores::node::NodeStore;
use ec_world::class::{ClassNo, FieldRec};
use ec_world::sight::Sees;
use ec_world::value::{Oid, ValueType};
use std::alloc::{AllocError, Global};

/// The objects in the attached fields of an object, in the order of the fields. The error is want of memory.
pub(crate) fn links(seen: &Seen<'_>, alloc: Global, oid: Oid) -> Result<Vec<Oid>, AllocError>
    ensures { IfOk result (λ oids. oids.items ≡ links_of (seen_common seen.now) oid) }
{
    let mut oids = Vec::new(alloc);
    let Some((node, object)) = seen.object(oid) else {
        return Ok(oids);
    };
    let ClassNo::Made(number) = object.class else {
        return Ok(oids);
    };
    let Some(class) = seen.classes().get(number as usize) else {
        return Ok(oids);
    };
    let both = usize::min(class.fields.len(), object.size as usize);
    for i in 0..both {
        let word = node.object_word(oid, i as u32);
        add(&mut oids, link_in(node, *class.fields.at(i), word))?;
    }
    Ok(oids)
}

/// One more number, where there is one. The error is want of memory.
fn add(oids: &mut Vec<Oid>, link: Option<Oid>) -> Result<(), AllocError>
    ensures { OnOk result (oids.new.items ≡ oids.old.items ++ option_to_list link) }
{
    if let Some(oid) = link {
        oids.push(oid)?;
    }
    Ok(())
}

/// The object that a field names, by its word, where the field is attached and names one.
fn link_in(node: &NodeStore, field: FieldRec, word: u32) -> Option<Oid>
    requires { IsSome (words.value_of (store_of node.now) field.of word) }
    ensures { (v : Value) → words.value_of (store_of node.now) field.of word ≡ Some v → link_of field v [] ≡ option_to_list result }
{
    if !field.attached {
        return None;
    }
    match field.of {
        ValueType::Integer | ValueType::Boolean | ValueType::Bytes => None,
        ValueType::Reference => {
            if word == 0 {
                return None;
            }
            Some(node.oid_of(word))
        }
    }
}
