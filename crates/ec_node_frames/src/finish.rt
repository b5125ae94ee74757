//! An action is done: its activation goes on.
ghost use Rattle.std.specs.Prelude.{◌<◌, option_copied, OnOk};
ghost use Rattle.ec_machine_code.specs.Frames as spec;
ghost use Rattle.ec_node_frames.specs.Finishing.{FinishesFrame, Gives, HasRoomIn, IsTaken};
ghost use Rattle.ec_node_frames.specs.Frames.{IsFrame};
ghost use Rattle.ec_world.specs.declared.key.Key.TheVariants.{Frame as OfFrame};
ghost use Rattle.ec_objects.specs.Values.{HasRoom};
ghost use Rattle.ec_generate.specs.Tables.{home_in};
ghost use Rattle.ec_stores.specs.Changes.{SameRest, WritesWord};
ghost use Rattle.ec_stores.specs.Node.{store_of};
ghost use Rattle.ec_things.specs.Store.{Tidy};
ghost use Rattle.ec_things.specs.Texts.{GetsTexts};

use crate::frames::{PENDING, home_word};
use ec_code::code::Variable;
use ec_generate::table::{OperationTable, StopEntry};
use ec_objects::values::word_for;
use ec_stores::node::NodeStore;
use ec_world::value::{Pid, Value};
use std::alloc::AllocError;

/// The action of an activation that is here, at a stop of the table of its operation, is done: what it gives goes to the home of the
/// variable that takes it, if there is one. The node has room for the text of that. The error is want of memory, or that the node has
/// 2^32 - 1 texts or references.
pub fn finish_frame(
    node: &mut NodeStore,
    table: &OperationTable,
    entry: &StopEntry,
    process: Pid,
    depth: u32,
    given: Option<&Value>,
) -> Result<(), AllocError>
    requires here { IsFrame (store_of node.old) process depth }
    requires text { HasRoomIn (store_of node.old) entry.now.result (option_copied given) }
    ensures puts { OnOk result
        (FinishesFrame (store_of node.old) (store_of node.new) table.now entry.now process depth (option_copied given.entry)) }
    ensures gets { OnOk result (GetsTexts (IsTaken entry.now.result (option_copied given.entry)) (store_of node.old) (store_of node.new)) }
    ensures here { OnOk result (IsFrame (store_of node.new) process depth) }
{
    match given {
        None => {
            end_action(node, process, depth);
            Ok(())
        }
        Some(value) => match entry.result {
            None => {
                end_action(node, process, depth);
                Ok(())
            }
            Some(taker) => give(node, table, taker.variable, process, depth, value),
        },
    }
}

/// The action of an activation is done, and the word of a value goes to the home of the variable that takes it.
fn give(
    node: &mut NodeStore,
    table: &OperationTable,
    taker: Variable,
    process: Pid,
    depth: u32,
    value: &Value,
) -> Result<(), AllocError>
    requires here { IsFrame (store_of node.old) process depth }
    requires text { HasRoom (store_of node.old) value.now }
    ensures gives { OnOk result
        (Gives (store_of node.old) (store_of node.new) process depth (spec.home_word (home_in table.now taker)) value.now) }
    ensures here { OnOk result (IsFrame (store_of node.new) process depth) }
{
    let word = word_for(node, value)?;
    let at = home_word(table.home(taker));
    end_action(node, process, depth);
    write_word(node, process, depth, at, word);
    Ok(())
}

/// The action of an activation is pending no more.
fn end_action(node: &mut NodeStore, process: Pid, depth: u32)
    requires { IsFrame (store_of node.old) process depth }
    ensures writes { WritesWord (store_of node.old) (store_of node.new) (OfFrame process depth) 4 0 }
    ensures tidy { Tidy (store_of node.new) }
    ensures here { IsFrame (store_of node.new) process depth }
{
    node.set_frame_word(process, depth, PENDING, 0);
    let _kind = node.kind();
}

/// Writes a word of a frame, where it has as many.
fn write_word(node: &mut NodeStore, process: Pid, depth: u32, at: usize, word: u32)
    requires { IsFrame (store_of node.old) process depth }
    ensures writes { at < 128 → WritesWord (store_of node.old) (store_of node.new) (OfFrame process depth) at word }
    ensures rest { SameRest (store_of node.old) (store_of node.new) }
    ensures tidy { Tidy (store_of node.new) }
    ensures here { IsFrame (store_of node.new) process depth }
{
    let _kind = node.kind();
    if at >= 128 {
        return;
    }
    node.set_frame_word(process, depth, at as u32, word);
    let _kind_after = node.kind();
}
