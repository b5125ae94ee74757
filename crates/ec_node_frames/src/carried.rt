//! What goes with an activation to another node.
ghost use Rattle.std.specs.Prelude.{◌≡◌, List, [], if◌then◌else◌, IfOk};
ghost use Rattle.ec_node_frames.specs.Carried as spec;
ghost use Rattle.ec_node_frames.specs.Carried.{CarriedHere, HasCarried, values_carried};
ghost use Rattle.ec_code.specs.Typing.{Declared};
ghost use Rattle.ec_code.specs.declared.activation.CodeActivation.{CodeActivation};
ghost use Rattle.ec_code.specs.declared.code.Parts.{Parts};
ghost use Rattle.ec_machine_code.specs.declared.homes.Home.{Home as HomeData};
ghost use Rattle.ec_generate.specs.declared.table.OperationTable.{OperationTable as TableData};
ghost use Rattle.ec_stores.specs.Node.{store_of};
ghost use Rattle.ec_world.specs.declared.node.Kind.{Kind as KindData};

use crate::operands::values_at;
use ec_code::code::Live;
use ec_generate::table::{OperationTable, StopEntry};
use ec_stores::node::NodeStore;
use ec_world::value::{Pid, Values};
use std::alloc::{AllocError, Global};

/// What an activation that is here holds at a stop of the table of its operation: the operands of its action, where this is pending, and
/// then what is live behind the stop. It has no result of the stop yet, so these are all its values. The error is want of memory.
pub fn carried_values(
    node: &NodeStore,
    alloc: Global,
    table: &OperationTable,
    entry: &StopEntry,
    process: Pid,
    depth: u32,
    pending: bool,
) -> Result<Values, AllocError>
    requires { HasCarried (store_of node.now) table.now entry.now process depth pending }
    ensures { (d : Declared) (p : Parts) (homes : KindData → List (List HomeData)) (tables : List TableData) (a : CodeActivation) →
        CarriedHere (store_of node.now) table.now entry.now process depth pending d p homes tables a →
        IfOk result (λ values. values ≡ values_carried p a entry.now pending) }
{
    let held = carried(alloc, entry, pending)?;
    let block = node.block_of_frame(process, depth);
    values_at(node, alloc, table, held.as_slice(), block)
}

/// The variables whose values go with an activation.
pub(crate) fn carried(
    alloc: Global,
    entry: &StopEntry,
    pending: bool,
) -> Result<Vec<Live>, AllocError>
    ensures { IfOk result (λ held. held.items ≡ spec.carried entry.now pending) }
{
    let mut held = pending_operands(alloc, entry, pending)?;
    held.extend_from_slice(entry.live.as_slice())?;
    Ok(held)
}

/// The variables that have the operands of an action, where it is pending.
fn pending_operands(
    alloc: Global,
    entry: &StopEntry,
    pending: bool,
) -> Result<Vec<Live>, AllocError>
    ensures { IfOk result (λ held. held.items ≡ (if pending then entry.now.operands else [])) }
{
    if pending {
        return Vec::from_slice(alloc, entry.operands.as_slice());
    }
    Ok(Vec::new(alloc))
}
