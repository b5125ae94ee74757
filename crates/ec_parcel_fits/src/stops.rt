//! Why an activation in a parcel doesn't fit at a node.
ghost use Rattle.std.specs.Prelude.{◌≡◌, ◌≢◌, ◌<◌, IfNone, IfOk, IfSome, IsFalse, IsTrue, Some, length, slice_get};
ghost use Rattle.ec_machine_code.specs.Frames as frames;
ghost use Rattle.ec_node_frames.specs.Carried.{carried};
ghost use Rattle.ec_node_frames.specs.Loops.{spot_of};
ghost use Rattle.ec_parcel_fits.specs.Unfitting.{ActivationFails, ActivationStands, UnfitActivation, VariableFits};
ghost use Rattle.ec_parcels.specs.Activations.{HasHomes};
ghost use Rattle.ec_stores.specs.Node.{store_of};
ghost use Rattle.ec_wire.specs.declared.parcel.ActivationPart.{ActivationPart as PartData};
ghost use Rattle.ec_world.specs.Group.{Has};

use crate::causes::ActivationCause;
use ec_code::code::Live;
use ec_generate::table::{OperationTable, StopEntry};
use ec_machine_code::homes::Home;
use ec_stores::node::NodeStore;
use ec_wire::parcel::ActivationPart;
use ec_world::same::are_same;
use ec_world::value::{Pid, Value};
use std::alloc::AllocError;

/// One of these activations that doesn't fit, by its process and its depth, and why. The error is want of memory.
pub(crate) fn unfit_activation(
    node: &NodeStore,
    tables: &[OperationTable],
    parts: &[ActivationPart],
) -> Result<Option<(Pid, u32, ActivationCause)>, AllocError>
    ensures some { IfOk result (λ r. IfSome r (λ u. UnfitActivation tables.now (store_of node.now) parts.now u.0 u.1 u.2)) }
    ensures none { IfOk result (λ r. IfNone r
        ((part : PartData) → Has parts.now part → ActivationStands tables.now (store_of node.now) part)) }
{
    for part in parts {
        if let Some(cause) = activation_fails(node, tables, part)? {
            return Ok(Some((part.process, part.depth, cause)));
        }
    }
    Ok(None)
}

/// Why an activation doesn't fit. The error is want of memory.
fn activation_fails(
    node: &NodeStore,
    tables: &[OperationTable],
    part: &ActivationPart,
) -> Result<Option<ActivationCause>, AllocError>
    ensures some { IfOk result (λ r. IfSome r (λ cause. ActivationFails tables.now (store_of node.now) part.now cause)) }
    ensures none { IfOk result (λ r. IfNone r (ActivationStands tables.now (store_of node.now) part.now)) }
{
    let Some(table) = tables.get(part.operation as usize) else {
        return Ok(Some(ActivationCause::NoStop));
    };
    let Some(entry) = table.stops.get(part.stop as usize) else {
        return Ok(Some(ActivationCause::NoStop));
    };
    if !has_count(entry, part) {
        return Ok(Some(ActivationCause::Count));
    }
    if !has_homes(table, entry, part)? {
        return Ok(Some(ActivationCause::Homes));
    }
    if node.has_frame(part.process, part.depth) {
        return Ok(Some(ActivationCause::DepthTaken));
    }
    Ok(None)
}

/// Whether an activation has as many values as variables whose values go from a stop.
fn has_count(entry: &StopEntry, part: &ActivationPart) -> bool
    ensures same { IsTrue result → length part.now.values ≡ length (carried entry.now part.now.is_pending) }
    ensures other { IsFalse result → length part.now.values ≢ length (carried entry.now part.now.is_pending) }
{
    let count = part.values.len();
    let operands = if part.is_pending {
        entry.operands.len()
    } else {
        0
    };
    count >= operands && count - operands == entry.live.len()
}

/// Whether each variable has a word of the frame, and those that have one word have one value. The error is want of memory.
fn has_homes(
    table: &OperationTable,
    entry: &StopEntry,
    part: &ActivationPart,
) -> Result<bool, AllocError>
    requires many { length part.now.values ≡ length (carried entry.now part.now.is_pending) }
    ensures homes { IfOk result (λ r. IsTrue r → HasHomes table.now entry.now part.now) }
    ensures none { IfOk result (λ r. IsFalse r → HasHomes table.now entry.now part.now → ⊥) }
{
    for i in 0..part.values.len() {
        if !variable_fits(table, entry, part, i)? {
            return Ok(false);
        }
    }
    Ok(true)
}

/// Whether a variable has a word of the frame, and each that has this word has its value. The error is want of memory.
fn variable_fits(
    table: &OperationTable,
    entry: &StopEntry,
    part: &ActivationPart,
    i: usize,
) -> Result<bool, AllocError>
    requires many { length part.now.values ≡ length (carried entry.now part.now.is_pending) }
    requires within { i < length part.now.values }
    ensures fits { IfOk result (λ r. IsTrue r → VariableFits table.now (carried entry.now part.now.is_pending) part.now.values i) }
    ensures none { IfOk result (λ r. IsFalse r → HasHomes table.now entry.now part.now → ⊥) }
{
    let at = word_of(table, variable_at(entry, part.is_pending, i));
    if at >= 128 {
        return Ok(false);
    }
    for j in 0..part.values.len() {
        let other = word_of(table, variable_at(entry, part.is_pending, j));
        if other == at && !is_one_value(part.values.at(i), part.values.at(j))? {
            return Ok(false);
        }
    }
    Ok(true)
}

/// The variable of value i at a stop.
fn variable_at(entry: &StopEntry, pending: bool, i: usize) -> &Live
    requires { i < length (carried entry.now pending) }
    ensures { slice_get (carried entry.now pending) i ≡ Some result.now }
{
    if !pending {
        return entry.live.at(i);
    }
    let operands = entry.operands.len();
    if i < operands {
        return entry.operands.at(i);
    }
    entry.live.at(i - operands)
}

/// The word of a frame that a variable has by a table.
fn word_of(table: &OperationTable, live: &Live) -> usize
    ensures { result ≡ spot_of table.now live.now }
{
    home_word(table.home(live.variable))
}

/// The word of a frame that a home has while its activation rests.
fn home_word(home: Home) -> usize
    ensures { result ≡ frames.home_word home }
{
    match home {
        Home::Register(k) => 8 + k as usize,
        Home::Slot(n) => 28 + n as usize,
    }
}

/// Whether two values are one. The error is want of memory.
fn is_one_value(a: &Value, b: &Value) -> Result<bool, AllocError>
    ensures one { IfOk result (λ r. IsTrue r → a.now ≡ b.now) }
    ensures two { IfOk result (λ r. IsFalse r → a.now ≢ b.now) }
{
    match are_same(a.copy()?, b.copy()?) {
        Some(same) => Ok(same),
        None => Ok(false),
    }
}
