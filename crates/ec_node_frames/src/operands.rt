//! Values of variables, read from the frame: the operands of a pending action.
ghost use Rattle.std.specs.Prelude.{◌≡◌, List, map, IfOk};
ghost use Rattle.ec_activations.specs.Frames.{held_in};
ghost use Rattle.ec_code.specs.Typing as typing;
ghost use Rattle.ec_code.specs.Typing.{Declared};
ghost use Rattle.ec_code.specs.declared.activation.CodeActivation.{CodeActivation};
ghost use Rattle.ec_code.specs.declared.code.Live.{Live as LiveData};
ghost use Rattle.ec_code.specs.declared.code.Parts.{Parts};
ghost use Rattle.ec_machine_code.specs.declared.homes.Home.{Home as HomeData};
ghost use Rattle.ec_node_frames.specs.Operands.{ActsHere, HasOperands};
ghost use Rattle.ec_node_frames.specs.Reading.{AreRead, ReadsIn};
ghost use Rattle.ec_generate.specs.declared.table.OperationTable.{OperationTable as TableData};
ghost use Rattle.ec_stores.specs.Node.{store_of};
ghost use Rattle.ec_world.specs.declared.node.Kind.{Kind as KindData};
ghost use Rattle.ec_world.specs.declared.value.Value.{Value as ValueData};

use crate::frames::home_word;
use ec_base::list::Seq;
use ec_code::code::Live;
use ec_generate::table::{OperationTable, StopEntry};
use ec_objects::values::value_of;
use ec_stores::node::NodeStore;
use ec_types::conform::static_type::{Plain, StaticType};
use ec_world::value::{Pid, Value, ValueType, Values};
use std::alloc::{AllocError, Global};

/// The operands of the action of an activation that is here, pending at a stop of the table of its operation. The error is want of
/// memory.
pub fn operands_of(
    node: &NodeStore,
    alloc: Global,
    table: &OperationTable,
    entry: &StopEntry,
    process: Pid,
    depth: u32,
) -> Result<Values, AllocError>
    requires { HasOperands (store_of node.now) table.now entry.now process depth }
    ensures { (d : Declared) (p : Parts) (homes : KindData → List (List HomeData)) (tables : List TableData) (a : CodeActivation) →
        ActsHere (store_of node.now) table.now entry.now process depth d p homes tables a →
        IfOk result (λ values. values ≡ map (λ h. h.value) (held_in p a entry.now.operands)) }
{
    let block = node.block_of_frame(process, depth);
    values_at(node, alloc, table, entry.operands.as_slice(), block)
}

/// The values of variables in the frame that is a block. The error is want of memory.
pub(crate) fn values_at(
    node: &NodeStore,
    alloc: Global,
    table: &OperationTable,
    held: &[Live],
    block: u32,
) -> Result<Values, AllocError>
    requires { (value : LiveData → ValueData) × AreRead (store_of node.now) table.now block held.now value }
    ensures { (value : LiveData → ValueData) → AreRead (store_of node.now) table.now block held.now value →
        IfOk result (λ values. values ≡ map value held.now) }
{
    let mut values = Seq::new(alloc);
    for live in held {
        let value = value_at(node, table, *live, block)?;
        values.push(value)?;
    }
    Ok(values)
}

/// The value of a variable in the frame that is a block, read by its type. The error is want of memory.
fn value_at(
    node: &NodeStore,
    table: &OperationTable,
    live: Live,
    block: u32,
) -> Result<Value, AllocError>
    requires { (v : ValueData) × ReadsIn (store_of node.now) table.now block live v }
    ensures { (v : ValueData) → ReadsIn (store_of node.now) table.now block live v → IfOk result (λ u. u ≡ v) }
{
    let _kind = node.kind();
    let at = home_word(table.home(live.variable));
    let word = node.word_in(block, at as u32);
    value_of(node, kind_of(live.of), word)
}

/// What a variable, a field or a constant of a type holds.
pub fn kind_of(of: StaticType) -> ValueType
    ensures { result ≡ typing.kind_of of }
{
    match of {
        StaticType::Plain(of) => plain_kind(of),
        StaticType::Vector(_, _) | StaticType::Nil | StaticType::Unknown => ValueType::Reference,
    }
}

fn plain_kind(of: Plain) -> ValueType
    ensures { result ≡ typing.plain_kind of }
{
    match of {
        Plain::Integer => ValueType::Integer,
        Plain::Boolean => ValueType::Boolean,
        Plain::String => ValueType::Bytes,
        Plain::Any | Plain::Node | Plain::Named(_) => ValueType::Reference,
    }
}
