//! A trial of a frame against words from outside.
ghost use Rattle.std.specs.Prelude.{IfOk};
ghost use Rattle.ec_node_frames.specs.Beginning.{HasEntry};

use ec_base::list::Seq;
use ec_code::code::{Live, Variable};
use ec_generate::table::{OperationTable, StopEntry};
use ec_machine_code::homes::Home;
use ec_node_frames::begin::begin_frame;
use ec_node_frames::finish::finish_frame;
use ec_node_frames::frames::{close_frame, headings_of};
use ec_stores::node::NodeStore;
use ec_types::conform::static_type::{Plain, StaticType};
use ec_world::node::Kind;
use ec_world::value::Value;
use std::alloc::{AllocError, Global};
use std::test::Fail;

// an operation with one parameter, which register 1 has at its entry
fn table(alloc: Global) -> Result<OperationTable, AllocError>
    ensures { IfOk result (λ table. HasEntry table) }
{
    let mut live = Seq::new(alloc);
    live.push(Live {
        variable: Variable::Named(0),
        of: StaticType::Plain(Plain::Integer),
    })?;
    let mut homes = Seq::new(alloc);
    homes.push(Home::Register(1))?;
    let mut stops = Seq::new(alloc);
    stops.push(StopEntry {
        place: 0,
        operands: Seq::new(alloc),
        result: None,
        live,
    })?;
    Ok(OperationTable {
        named: 1,
        homes,
        stops,
    })
}

#[test]
fn an_activation_comes_and_goes(rt: HostRuntime) -> Result<(), Fail> {
    let mut node = NodeStore::new(rt.alloc(), Kind::Mips, 1, 0, 0)?;
    let table = table(rt.alloc())?;
    begin_frame(&mut node, rt.alloc(), &table, 2, 0, 3, 7, &[Value::Int(5)])?;
    let headings = headings_of(&node, 2, 0);
    assert_eq!(rt; headings.own, 7);
    assert!(rt; headings.pending);
    assert_eq!(rt; node.frame_word(2, 0, 9), 5);
    finish_frame(&mut node, &table, table.stops.at(0), 2, 0, None)?;
    assert!(rt; !headings_of(&node, 2, 0).pending);
    close_frame(&mut node, 2, 0);
    assert_eq!(rt; node.free_blocks(), 1);
    Ok(())
}
