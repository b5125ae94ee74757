//! Words as values, and values as words.
ghost use Rattle.std.specs.Prelude.{◌≡◌, IfOk, IsSome, OnOk, Some, length};
ghost use Rattle.ec_objects.specs.Values as spec;
ghost use Rattle.ec_objects.specs.Values.{HasRoom, HasWord, HasWords, TextsFit};
ghost use Rattle.ec_stores.specs.Node.{store_of};
ghost use Rattle.ec_things.specs.Store.{Tidy};

use ec_stores::node::NodeStore;
use ec_world::value::{Value, ValueType, copy_text};
use std::alloc::{AllocError, Global};

/// The value that a word of a node stands for, given its kind. The error is want of memory, for the bytes of a text.
pub fn value_of(node: &NodeStore, of: ValueType, word: u32) -> Result<Value, AllocError>
    requires { IsSome (spec.value_of (store_of node.now) of word) }
    ensures { IfOk result (λ v. spec.value_of (store_of node.now) of word ≡ Some v) }
{
    match of {
        ValueType::Integer => Ok(Value::Int(word.cast_signed())),
        ValueType::Boolean => Ok(Value::Bool(word == 1)),
        ValueType::Bytes => Ok(Value::Str(copy_text(node.text(word))?)),
        ValueType::Reference => {
            if word == 0 {
                return Ok(Value::Nil);
            }
            Ok(Value::Ref(node.oid_of(word)))
        }
    }
}

/// The word of a value, with a text or a reference made where it isn't there. The error is want of memory, or that the node has
/// 2^32 - 1 texts or references.
pub fn word_for(node: &mut NodeStore, value: &Value) -> Result<u32, AllocError>
    requires { HasRoom (store_of node.old) value.now }
    ensures { IfOk result (λ w. HasWord (store_of node.old) (store_of node.new) value.now w) }
{
    match value {
        Value::Int(z) => Ok(plain(node, z.cast_unsigned())),
        Value::Bool(b) => Ok(plain(node, u32::from(*b))),
        Value::Str(t) => node.intern(copy_text(t)?),
        Value::Ref(oid) => node.local_of(*oid),
        Value::Nil => Ok(plain(node, 0)),
    }
}

/// A word for which nothing has to be made. What a node keeps is tidy.
fn plain(node: &NodeStore, word: u32) -> u32
    ensures same { result ≡ word }
    ensures tidy { Tidy (store_of node.now) }
{
    let _kind = node.kind();
    word
}

/// The words of values, with texts and references made where they aren't there. The error is that of `word_for`.
pub fn words_for(
    node: &mut NodeStore,
    alloc: Global,
    values: &[Value],
) -> Result<Vec<u32>, AllocError>
    requires { TextsFit (store_of node.old) values.now }
    ensures { IfOk result (λ words. HasWords (store_of node.old) (store_of node.new) values.now words.items) }
{
    let _kind = node.kind();
    let mut words = Vec::new(alloc);
    for i in 0..values.len() {
        let word = word_for(node, &values[i])?;
        words.push(word)?;
    }
    Ok(words)
}
