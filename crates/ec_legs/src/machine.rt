//! A machine is set up for an activation, and an activation rests where a machine has come to.
ghost use Rattle.std.specs.Prelude.{◌≡◌, ◌<◌, ℕ, Some};
ghost use Rattle.ec_machine_code.specs.Frames.{block_at};
ghost use Rattle.ec_legs.specs.Machines.{IsBehindStop, IsSetUp, IsUnsaved, IsUntouched, NamesObject, NamesStop, Restores};
ghost use Rattle.ec_legs.specs.Machines.{RestsWhere, Saves};
ghost use Rattle.ec_legs.specs.Words.{IsFrame};
ghost use Rattle.ec_world.specs.declared.key.Key.TheVariants.{Frame, Object as OfObject};
ghost use Rattle.ec_generate.specs.Addresses.{address_in};
ghost use Rattle.ec_stores.specs.Changes.{FirstBlock, HasBlock};
ghost use Rattle.ec_stores.specs.Node.{KeepsBytes, store_of};

use crate::kind::NativeKind;
use ec_generate::table::{StopId, StopTable};
use ec_stores::node::NodeStore;
use ec_target::machine::Machine;
use ec_world::value::{Oid, Pid};

/// The headings of a frame that are its operation, its stop, whether the stop's action is pending, and its own object.
const OPERATION: u32 = 2;

const STOP: u32 = 3;

const PENDING: u32 = 4;

const OWN_OBJECT: u32 = 5;

/// The first of the words of a frame in which homes are saved.
const FIRST_SAVED: u32 = 8;

/// Where a block begins.
fn block_address(block: u32) -> u32
    requires { block < 65536 }
    ensures { result ≡ block_at block }
{
    0x1000_0000 + 512 * block
}

/// Puts a machine at rest behind the stop at which an activation rests: with the addresses of the frame and of the own object, and with
/// what the frame has saved.
pub(crate) fn go_behind_stop<M: Machine, N: NativeKind<M>>(
    machine: &mut M,
    node: &NodeStore,
    table: &StopTable,
    process: Pid,
    depth: u32,
)
    requires frame { IsFrame (store_of node.now) process depth }
    requires stop { NamesStop table.now.addresses (store_of node.now) process depth }
    requires object { NamesObject (store_of node.now) process depth }
    ensures { IsBehindStop N.meaning table.now.addresses (store_of node.now) process depth machine.new }
{
    let block = node.block_of_frame(process, depth);
    let operation = node.word_in(block, OPERATION);
    let stop = node.word_in(block, STOP);
    let own = node.word_in(block, OWN_OBJECT);
    let address = table.pc_of(StopId { operation, stop });
    set_up::<M, N>(machine, node, process, depth, block, own, address + 4);
}

/// Puts a machine at rest at a place, for an activation, whose frame is this block.
fn set_up<M: Machine, N: NativeKind<M>>(
    machine: &mut M,
    node: &NodeStore,
    process: Pid,
    depth: u32,
    block: u32,
    own: Oid,
    place: u32,
)
    requires frame { FirstBlock (store_of node.now) (Frame process depth) block }
    requires few { block < 65536 }
    requires object { HasBlock (store_of node.now) (OfObject own) }
    ensures { IsSetUp N.meaning (store_of node.now) process depth own place machine.new }
{
    let frame_at = block_address(block);
    let own_at = block_address(node.first_block(own));
    machine.set_reg(M::FRAME, frame_at);
    machine.set_reg(M::OWN, own_at);
    restore::<M, N>(machine, node, process, depth, block);
    machine.set_pc(place);
}

/// The homes get the words that a frame, this block, has saved.
fn restore<M: Machine, N: NativeKind<M>>(
    machine: &mut M,
    node: &NodeStore,
    process: Pid,
    depth: u32,
    block: u32,
)
    requires { FirstBlock (store_of node.now) (Frame process depth) block }
    ensures { Restores N.meaning (store_of node.now) process depth N.HOMES machine.old machine.new }
{
    for k in 0..N::HOMES {
        let word = node.word_in(block, FIRST_SAVED + k);
        machine.set_reg(N::FIRST_HOME + k, word);
    }
}

/// An activation rests at the stop to which a machine has come, pending, with the homes saved in its frame.
pub(crate) fn rest_at<M: Machine, N: NativeKind<M>>(
    node: &mut NodeStore,
    machine: &M,
    table: &StopTable,
    process: Pid,
    depth: u32,
)
    requires frame { IsFrame (store_of node.old) process depth }
    requires stop { (operation : ℕ) × (number : ℕ)
        × (address_in table.now.addresses operation number ≡ Some (N.meaning.place machine.now)) }
    ensures rests { RestsWhere N.meaning table.now.addresses (store_of node.old) (store_of node.new) process depth machine.now }
    ensures bytes { KeepsBytes node.old node.new (Frame process depth) (IsUntouched N.HOMES) }
{
    let Some(id) = table.at_pc(machine.pc()) else {
        unreachable!()
    };
    let block = node.block_of_frame(process, depth);
    save::<M, N>(node, machine, process, depth, block);
    node.set_word_in(block, STOP, id.stop);
    node.set_word_in(block, PENDING, 1);
}

/// The homes are saved in a frame, which is this block.
fn save<M: Machine, N: NativeKind<M>>(
    node: &mut NodeStore,
    machine: &M,
    process: Pid,
    depth: u32,
    block: u32,
)
    requires frame { IsFrame (store_of node.old) process depth }
    requires first { FirstBlock (store_of node.old) (Frame process depth) block }
    ensures saves { Saves N.meaning (store_of node.old) (store_of node.new) process depth N.HOMES machine.now }
    ensures bytes { KeepsBytes node.old node.new (Frame process depth) (IsUnsaved N.HOMES) }
{
    for k in 0..N::HOMES {
        let word = machine.read_reg(N::FIRST_HOME + k);
        node.set_word_in(block, FIRST_SAVED + k, word);
    }
}
