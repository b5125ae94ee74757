//! The stop at which an activation rests, by its node and the image for the node's kind.
ghost use Rattle.std.specs.Prelude.{◌≡◌, ℕ, List, Some, slice_get};
ghost use Rattle.ec_cluster.specs.Stops.{RestsThere, SomeRests, SomeRestsHere, tables_for};
ghost use Rattle.ec_code.specs.Typing.{Declared};
ghost use Rattle.ec_code.specs.declared.activation.CodeActivation.{CodeActivation};
ghost use Rattle.ec_code.specs.declared.code.Parts.{Parts as PartsData};
ghost use Rattle.ec_machine_code.specs.declared.homes.Home.{Home};
ghost use Rattle.ec_node_frames.specs.Finishing.{RestsHere};
ghost use Rattle.ec_generate.specs.declared.table.OperationTable.{OperationTable as Table};
ghost use Rattle.ec_generate.specs.declared.table.StopEntry.{StopEntry as Entry};
ghost use Rattle.ec_stores.specs.Node.{store_of};
ghost use Rattle.ec_world.specs.declared.node.Kind.{Kind};

use crate::cluster::Images;
use ec_generate::table::{OperationTable, StopEntry};
use ec_node_frames::frames::headings_of;
use ec_stores::node::NodeStore;
use ec_world::value::Pid;

/// The table of the operation of an activation that is here.
pub fn table_of<'a>(
    images: &'a Images,
    node: &NodeStore,
    process: Pid,
    depth: u32,
) -> &'a OperationTable
    requires { SomeRests images.now (store_of node.now) process depth }
    ensures { (d : Declared) (p : PartsData) (a : CodeActivation) (e : Entry) →
        RestsThere d p images.now (store_of node.now) process depth a e →
        slice_get (tables_for images.now (store_of node.now)) a.operation ≡ Some result.now }
{
    let headings = headings_of(node, process, depth);
    images
        .of(node.kind())
        .table
        .operations
        .at(headings.operation as usize)
}

/// The stop at which an activation that is here rests, by the table of its operation.
pub fn entry_of<'a>(
    table: &'a OperationTable,
    node: &NodeStore,
    process: Pid,
    depth: u32,
) -> &'a StopEntry
    requires { SomeRestsHere table.now (store_of node.now) process depth }
    ensures { (d : Declared) (p : PartsData) (homes : Kind → List (List Home)) (tables : List Table) (a : CodeActivation) (e : Entry) →
        RestsHere (store_of node.now) table.now e process depth d p homes tables a → result.now ≡ e }
{
    let headings = headings_of(node, process, depth);
    table.stops.at(headings.stop as usize)
}
