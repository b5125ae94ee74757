//! Activations that go from a node, and activations that come to it.
ghost use Rattle.std.specs.Prelude.{◌≡◌, ◌<◌, ◌∷◌, List, length, slice_get, IfOk, None, OnOk, Some};
ghost use Rattle.ec_node_frames.specs.Arriving.{Arrives};
ghost use Rattle.ec_code.specs.Typing.{Declared};
ghost use Rattle.ec_code.specs.declared.activation.CodeActivation.{CodeActivation};
ghost use Rattle.ec_code.specs.declared.code.Parts.{Parts};
ghost use Rattle.ec_machine_code.specs.declared.homes.Home.{Home};
ghost use Rattle.ec_parcels.specs.Activations.{CanLeave, HasHomes, HasStop, IsStopOf, Leaves};
ghost use Rattle.ec_parcels.specs.Activations.{activation_part_of, frame_in, headings_in};
ghost use Rattle.ec_node_frames.specs.Frames.{IsFrame};
ghost use Rattle.ec_world.specs.declared.key.Key.TheVariants.{Frame as OfFrame};
ghost use Rattle.ec_objects.specs.Values.{TextsFit};
ghost use Rattle.ec_generate.specs.declared.table.OperationTable.{OperationTable as Table};
ghost use Rattle.ec_generate.specs.declared.table.StopEntry.{StopEntry as Entry};
ghost use Rattle.ec_stores.specs.Node.{store_of};
ghost use Rattle.ec_things.specs.Texts.{GetsTexts};
ghost use Rattle.ec_things.specs.Things.{Puts};
ghost use Rattle.ec_world.specs.Group.{Has};
ghost use Rattle.ec_world.specs.declared.node.Kind.{Kind};
ghost use Rattle.ec_world.specs.declared.value.Value.TheVariants.{Ref, Str};

use ec_generate::table::OperationTable;
use ec_node_frames::arrive::arrive;
use ec_node_frames::carried::carried_values;
use ec_node_frames::frames::{Headings, headings_of};
use ec_stores::node::NodeStore;
use ec_wire::parcel::ActivationPart;
use ec_world::value::Pid;
use std::alloc::{AllocError, Global};

/// What goes of an activation that is here, at a depth of its process (from 0 at the bottom), by the tables of the program's operations
/// for the kind of this node: its operation, the stop at which it rests, and its values there, which are the same for each kind. The
/// error is want of memory.
pub fn activation_part(
    node: &NodeStore,
    alloc: Global,
    tables: &[OperationTable],
    process: Pid,
    depth: u32,
) -> Result<ActivationPart, AllocError>
    requires { CanLeave (store_of node.now) tables.now process depth }
    ensures { (d : Declared) (p : Parts) (homes : Kind → List (List Home)) (a : CodeActivation) (e : Entry) →
        Leaves (store_of node.now) tables.now process depth d p homes a e →
        IfOk result (λ part. part ≡ activation_part_of process depth p a e) }
{
    let headings = headings_of(node, process, depth);
    let table = table_at(tables, headings.operation);
    let entry = table.stops.at(headings.stop as usize);
    let values = carried_values(node, alloc, table, entry, process, depth, headings.pending)?;
    Ok(ActivationPart {
        process,
        depth,
        operation: headings.operation,
        stop: headings.stop,
        is_pending: headings.pending,
        own: headings.own,
        values,
    })
}

/// An activation comes, into a free block, by the tables of the program's operations for the kind of this node, which have its operation
/// and its stop. The node has room for its texts. The error is want of memory, or that the node has 2^32 - 1 texts or references; what
/// it keeps is then left open.
pub fn put_activation(
    node: &mut NodeStore,
    alloc: Global,
    tables: &[OperationTable],
    part: &ActivationPart,
) -> Result<(), AllocError>
    requires new { (store_of node.old).row (OfFrame part.now.process part.now.depth) ≡ None }
    requires room { 0 < (store_of node.old).free }
    requires stop { HasStop tables.now part.now }
    requires texts { TextsFit (store_of node.old) (Ref part.now.own ∷ part.now.values) }
    ensures puts { (table : Table) (e : Entry) → IsStopOf tables.now part.now table e →
        OnOk result (Arrives (store_of node.old) (store_of node.new) table e part.now.process part.now.depth (headings_in part.now)
        part.now.values) }
    ensures spelled { (table : Table) (e : Entry) → IsStopOf tables.now part.now table e →
        OnOk result (HasHomes table e part.now → Puts (store_of node.old) (store_of node.new)
        (OfFrame part.now.process part.now.depth) (Some (frame_in table e part.now))) }
    ensures gets { OnOk result (GetsTexts (λ text. Has (Ref part.now.own ∷ part.now.values) (Str text))
        (store_of node.old) (store_of node.new)) }
    ensures here { OnOk result (IsFrame (store_of node.new) part.now.process part.now.depth) }
{
    let headings = Headings {
        operation: part.operation,
        stop: part.stop,
        pending: part.is_pending,
        own: part.own,
    };
    let table = table_at(tables, part.operation);
    let entry = table.stops.at(part.stop as usize);
    arrive(
        node,
        alloc,
        table,
        entry,
        part.process,
        part.depth,
        headings,
        part.values.as_slice(),
    )
}

/// The table of an operation that has one.
fn table_at(tables: &[OperationTable], operation: u32) -> &OperationTable
    requires { operation < length tables.now }
    ensures { slice_get tables.now operation ≡ Some result.now }
{
    &tables[operation as usize]
}
