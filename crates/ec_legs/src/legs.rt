//! Native code from a stop to the next.
ghost use Rattle.ec_legs.specs.Legs.{CanGoOn, HasGoneOn};
ghost use Rattle.ec_legs.specs.Runs.{RunsNatively};
ghost use Rattle.ec_stores.specs.Node.{store_of};

use crate::kind::NativeKind;
use crate::machine::{go_behind_stop, rest_at};
use ec_generate::table::StopTable;
use ec_machine_code::code::Code;
use ec_stores::node::NodeStore;
use ec_target::machine::Machine;
use ec_world::value::Pid;

/// Runs the native code of an activation that rests at a stop whose action is done, to the next stop, where it rests again, with the
/// action pending, on a machine of the node's kind, whatever it did before. Answers how many instructions come before that stop. No
/// instruction traps.
pub fn go_on<M: Machine, N: NativeKind<M>>(
    machine: &mut M,
    node: &mut NodeStore,
    code: &Code,
    table: &StopTable,
    process: Pid,
    depth: u32,
) -> u64
    requires { CanGoOn N.meaning code.now table.now (store_of node.old) process depth }
    ensures leg { HasGoneOn N.meaning code.now table.now (store_of node.old) (store_of node.new) process depth result }
    ensures native { RunsNatively N.meaning M.goes M.stops code.now table.now node.old node.new process depth result }
{
    let _before = node.runs_on();
    let _tidy = node.kind();
    go_behind_stop::<M, N>(machine, node, table, process, depth);
    let Ok(steps) = node.run(machine, code.words.as_slice()) else {
        unreachable!()
    };
    let _between = node.runs_on();
    rest_at::<M, N>(node, machine, table, process, depth);
    let _after = node.kind();
    steps
}
