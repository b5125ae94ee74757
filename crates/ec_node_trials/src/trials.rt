//! A parcel of a half-done sum: the lower of its two activations rests behind a call and holds 40, which in the parcel's bytes is made
//! 41. A node of either kind, at which these bytes are unpacked, then has 41 at the variable's home: the bytes decide, and no copy that
//! is kept elsewhere. And what is told of parcels that don't fit. What is large is never dropped here: how it is dropped is proved in the
//! crates that do so, and would be proved once more.
ghost use Rattle.std.specs.Prelude.{◌<◌, ◌≤◌};
ghost use Rattle.ec_wire.specs.WireForm.{IsWire};

use ec_base::list::Seq;
use ec_carrying::unpacking::unpack;
use ec_code::code::{Live, Variable};
use ec_generate::table::{OperationTable, StopEntry};
use ec_machine_code::homes::Home;
use ec_parcel_fits::causes::{ActivationCause, ObjectCause, Unfit};
use ec_parcel_fits::unfitting::unfit;
use ec_parcels::mover::classes::ClassNumbers;
use ec_stores::node::NodeStore;
use ec_types::conform::static_type::{Plain, StaticType};
use ec_wire::parcel::Parcel;
use ec_wire::read;
use ec_world::node::Kind;
use ec_world::room::Part;
use std::alloc::{AllocError, Global};
use std::mem::ManuallyDrop;
use std::process::Abort;
use std::test::Fail;

/// The form's name and version; no object, no monitor, one activation, whose bytes are those of the worked saved point of a half-done
/// sum. It is that of process 0 at depth 1, rests at stop 2 of operation 1, whose action is done, on object 4, and holds one value: the
/// integer 40.
const HALF_DONE: [u8; 46] = [
    0x45, 0x4D, 0x56, 1, 0, 0, 0, 0, 0, 0, 0, 0, 0, 0, 0, 1, 0, 0, 0, 0, 0, 0, 0, 1, 0, 0, 0, 1, 0,
    0, 0, 2, 0, 0, 0, 0, 4, 0, 0, 0, 1, 1, 0, 0, 0, 40,
];

/// The home of the one variable on each kind, and the word of a frame that this home has: the first saved register has word 8, the
/// first slot word 28.
fn home_on(kind: Kind) -> (Home, u32)
    ensures { result.1 < 128 }
{
    match kind {
        Kind::Riscv => (Home::Register(0), 8),
        Kind::Mips => (Home::Slot(0), 28),
    }
}

/// A stop without operands and a result, behind which these are live.
fn stop(alloc: Global, place: u32, live: Seq<Live>) -> StopEntry {
    StopEntry {
        place,
        operands: Seq::new(alloc),
        result: None,
        live,
    }
}

/// An operation that has its variables at these homes, and these stops.
fn operation(homes: Seq<Home>, stops: Seq<StopEntry>) -> OperationTable {
    OperationTable {
        named: 0,
        homes,
        stops,
    }
}

/// The tables of two operations. The second has its entry and two calls, one behind the other; behind the second call, its one variable
/// is live.
fn tables(alloc: Global, home: Home) -> Result<Seq<OperationTable>, AllocError> {
    let mut live = Seq::new(alloc);
    live.push(Live {
        variable: Variable::Temporary(0),
        of: StaticType::Plain(Plain::Integer),
    })?;
    let mut homes = Seq::new(alloc);
    homes.push(home)?;
    let mut stops = Seq::new(alloc);
    stops.push(stop(alloc, 0, Seq::new(alloc)))?;
    stops.push(stop(alloc, 1, Seq::new(alloc)))?;
    stops.push(stop(alloc, 2, live))?;
    let mut tables = Seq::new(alloc);
    tables.push(operation(Seq::new(alloc), Seq::new(alloc)))?;
    tables.push(operation(homes, stops))?;
    Ok(tables)
}

/// No class has a number but the program's own object.
fn numbers(alloc: Global) -> ClassNumbers {
    ClassNumbers::new(0, Seq::new(alloc))
}

/// The word at a place of the frame of a parcel's one activation, once its bytes were unpacked at a node where it fits.
fn unpacked_word(
    rt: &impl Abort,
    alloc: Global,
    node: &mut NodeStore,
    tables: &[OperationTable],
    numbers: &ClassNumbers,
    parcel: &Parcel,
    bytes: &[u8],
    at: u32,
) -> Result<u32, Fail>
    requires wire { IsWire parcel.now bytes.now }
    requires low { at < 128 }
{
    let [part] = parcel.activations() else {
        panic!(rt; "one activation");
    };
    if unfit(node, alloc, tables, numbers, parcel)?.is_some() {
        panic!(rt; "it fits");
    }
    unpack(node, alloc, tables, numbers, bytes)?;
    Ok(node.frame_word(part.process, part.depth, at))
}

/// The word at the variable's home on a new node of a kind, once the parcel with these bytes was unpacked there; and what is told of the
/// same parcel from then on.
fn word_after(rt: &impl Abort, alloc: Global, kind: Kind, bytes: &[u8]) -> Result<(u32, u8), Fail> {
    let (home, at) = home_on(kind);
    let tables = ManuallyDrop::new(tables(alloc, home)?);
    let numbers = ManuallyDrop::new(numbers(alloc));
    let mut node = ManuallyDrop::new(NodeStore::new(alloc, kind, 1, 0, 0)?);
    let parcel = ManuallyDrop::new(read(alloc, bytes)?);
    let tables = tables.as_slice();
    let word = unpacked_word(rt, alloc, &mut node, tables, &numbers, &parcel, bytes, at)?;
    let again = unfit(&node, alloc, tables, &numbers, &parcel)?;
    Ok((word, told(again)))
}

/// Why a parcel with these bytes doesn't fit at a new node with so many blocks.
fn why(alloc: Global, blocks: u32, bytes: &[u8]) -> Result<u8, Fail>
    requires { blocks ≤ 65536 }
{
    let (home, _) = home_on(Kind::Riscv);
    let tables = ManuallyDrop::new(tables(alloc, home)?);
    let numbers = ManuallyDrop::new(numbers(alloc));
    let node = ManuallyDrop::new(NodeStore::new(alloc, Kind::Riscv, blocks, 0, 0)?);
    let parcel = ManuallyDrop::new(read(alloc, bytes)?);
    Ok(told(unfit(&node, alloc, tables.as_slice(), &numbers, &parcel)?))
}

/// A number for each cause.
fn told(why: Option<Unfit>) -> u8 {
    match why {
        None => 0,
        Some(Unfit::OfObject(_, ObjectCause::NoClass)) => 1,
        Some(Unfit::OfObject(_, ObjectCause::NumberTaken)) => 2,
        Some(Unfit::OfMonitor(_)) => 3,
        Some(Unfit::OfActivation(_, _, ActivationCause::NoStop)) => 4,
        Some(Unfit::OfActivation(_, _, ActivationCause::Count)) => 5,
        Some(Unfit::OfActivation(_, _, ActivationCause::Homes)) => 6,
        Some(Unfit::OfActivation(_, _, ActivationCause::DepthTaken)) => 7,
        Some(Unfit::NoRoom(Part::Blocks)) => 8,
        Some(Unfit::NoRoom(Part::Text)) => 9,
    }
}

#[test]
fn parcel_decides(rt: HostRuntime) -> Result<(), Fail> {
    for (kind, held) in [
        (Kind::Riscv, 40),
        (Kind::Riscv, 41),
        (Kind::Mips, 40),
        (Kind::Mips, 41),
    ] {
        let mut bytes = HALF_DONE;
        bytes[45] = held;
        let (word, again) = word_after(&rt, rt.alloc(), kind, &bytes)?;
        assert_eq!(rt; word, u32::from(held));
        // The node has it now.
        assert_eq!(rt; again, 7);
    }
    Ok(())
}

/// The bytes of the operation, of the stop and of the count of what is held are changed, and the node has no block.
#[test]
fn strangers_are_told_why(rt: HostRuntime) -> Result<(), Fail> {
    for (blocks, place, byte, cause) in [
        (1, 45, 41, 0),
        (1, 27, 2, 4),
        (1, 31, 3, 4),
        (1, 31, 1, 5),
        (0, 45, 41, 8),
    ] {
        let mut bytes = HALF_DONE;
        bytes[place] = byte;
        assert_eq!(rt; why(rt.alloc(), blocks, &bytes)?, cause);
    }
    Ok(())
}
