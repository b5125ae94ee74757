//! An activation begins: its frame is made.
ghost use Rattle.std.specs.Prelude.{◌≡◌, ◌<◌, ◌∷◌, map, IfOk, None, OnOk};
ghost use Rattle.ec_node_frames.specs.Beginning as spec;
ghost use Rattle.ec_node_frames.specs.Beginning.{BeginsFrame, HasEntry};
ghost use Rattle.ec_node_frames.specs.Frames.{IsFrame};
ghost use Rattle.ec_world.specs.declared.key.Key.TheVariants.{Frame as OfFrame};
ghost use Rattle.ec_objects.specs.Values.{TextsFit};
ghost use Rattle.ec_stores.specs.Node.{store_of};
ghost use Rattle.ec_things.specs.Texts.{GetsTexts};
ghost use Rattle.ec_world.specs.Group.{Has};
ghost use Rattle.ec_world.specs.declared.value.Value.TheVariants.{Ref, Str};

use crate::frames::filled;
use ec_code::code::{Live, Variable};
use ec_generate::table::OperationTable;
use ec_objects::values::words_for;
use ec_stores::node::NodeStore;
use ec_world::value::{Oid, OpNo, Pid, Value};
use std::alloc::{AllocError, Global};

/// A new activation of an operation on an object, with these arguments, in a free block: it rests at its entry. The node has room for
/// the texts of what it holds there. The error is want of memory, or that the node has 2^32 - 1 texts or references; what it keeps is
/// then left open.
pub fn begin_frame(
    node: &mut NodeStore,
    alloc: Global,
    table: &OperationTable,
    process: Pid,
    depth: u32,
    operation: OpNo,
    own: Oid,
    arguments: &[Value],
) -> Result<(), AllocError>
    requires new { (store_of node.old).row (OfFrame process depth) ≡ None }
    requires room { 0 < (store_of node.old).free }
    requires entry { HasEntry table.now }
    requires texts { TextsFit (store_of node.old) (spec.first_values table.now own arguments.now) }
    ensures puts { OnOk result
        (BeginsFrame (store_of node.old) (store_of node.new) table.now process depth operation own arguments.now) }
    ensures gets { OnOk result (GetsTexts (λ text. Has (spec.first_values table.now own arguments.now) (Str text))
        (store_of node.old) (store_of node.new)) }
    ensures here { OnOk result (IsFrame (store_of node.new) process depth) }
{
    let live = first_held(alloc, table)?;
    let held = live.as_slice();
    let values = first_values(alloc, held, own, arguments)?;
    let made = words_for(node, alloc, values.as_slice())?;
    let words = made.as_slice();
    let heads = [process, depth, operation, 0, 1, own, words[0]];
    let frame = filled(alloc, table, held, words, &heads)?;
    node.begin(process, depth, own, frame.as_slice())
}

/// The variables that hold something at the entry. The error is want of memory.
pub fn first_held(alloc: Global, table: &OperationTable) -> Result<Vec<Live>, AllocError>
    requires { HasEntry table.now }
    ensures { IfOk result (λ held. held.items ≡ spec.first_held table.now) }
{
    let entry = table.stops.at(0);
    let mut held = Vec::from_slice(alloc, entry.operands.as_slice())?;
    held.extend_from_slice(entry.live.as_slice())?;
    Ok(held)
}

/// What a variable holds at the entry: a parameter its argument, all else nil.
fn first_value(arguments: &[Value], x: Variable) -> Result<Value, AllocError>
    ensures { IfOk result (λ v. v ≡ spec.first_value arguments.now x) }
{
    match x {
        Variable::Named(n) => match arguments.get(n as usize) {
            Some(value) => value.copy(),
            None => Ok(Value::Nil),
        },
        Variable::Temporary(_) => Ok(Value::Nil),
    }
}

/// The reference to the own object, and what each of these variables holds at the entry. The error is want of memory.
pub fn first_values(
    alloc: Global,
    held: &[Live],
    own: Oid,
    arguments: &[Value],
) -> Result<Vec<Value>, AllocError>
    ensures { IfOk result
        (λ values. values.items ≡ Ref own ∷ map (λ l. spec.first_value arguments.now l.variable) held.now) }
{
    let mut values = Vec::new(alloc);
    values.push(Value::Ref(own))?;
    for live in held {
        let value = first_value(arguments, live.variable)?;
        values.push(value)?;
    }
    Ok(values)
}
