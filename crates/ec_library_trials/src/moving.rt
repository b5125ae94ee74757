//! Moves between two nodes by a plain meaning, and the network that a run leaves behind. What is large is never dropped here:
//! how a tree, a world or a network is dropped is proved in the crates that do so, and would be proved once more.
use ec_check::check::{Checked, check};
use ec_inputs::schedule::read_schedule;
use ec_lexer::lex;
use ec_meaning::meaning::Meaning;
use ec_meaning::source::Program;
use ec_outside::mem_shelf::{MemFile, MemShelf};
use ec_outside::mem_sink::MemSink;
use ec_parser::parse;
use ec_report::status::Status;
use ec_tool::emerald::emerald;
use ec_tool::network::Network;
use ec_world::group::group;
use ec_world::process::ProcStatus;
use ec_world::run::Entry;
use std::alloc::{AllocError, Global};
use std::mem::ManuallyDrop;
use std::process::Abort;
use std::test::Fail;

/// Two objects that are attached to each other, of which the one is moved to the second node.
const TIED: &[u8] = b"const A <- class A
  attached var other : A
  export operation tie [x : A]
    other <- x
  end tie
end A
const p <- A.create
const q <- A.create
const main <- object main
  initially
    p.tie[q]
    q.tie[p]
    move p to Node.at[1]
  end initially
end main
";

fn accepted(alloc: Global, text: &[u8]) -> Result<Checked, Fail> {
    let tokens = lex(alloc, text)?;
    let tree = parse(alloc, tokens.as_slice())?;
    Ok(check(alloc, tree)?)
}

/// Does the entries of a schedule.
fn follow(alloc: Global, meaning: &mut Meaning<'_>, schedule: &[u8]) -> Result<(), Fail> {
    for entry in &read_schedule(alloc, schedule)? {
        match *entry {
            Entry::Turn { p, times } => {
                for _ in 0..times {
                    meaning.turn(p)?;
                }
            }
            Entry::Move { o, k } => meaning.operator_move(o, k)?,
        }
    }
    Ok(())
}

// Nodes are 0 and 1, and the objects of the program those from 3 on.
#[test]
fn a_group_moves_whole(rt: HostRuntime) -> Result<(), Fail> {
    let alloc = rt.alloc();
    let checked = ManuallyDrop::new(accepted(alloc, TIED)?);
    let program = Program::new(alloc, TIED, &checked.table, &checked.core)?;
    let mut meaning = ManuallyDrop::new(Meaning::start(alloc, program, 2)?);
    follow(alloc, &mut meaning, b"turn 0 times 22 % to the end")?;
    assert_eq!(rt; meaning.process(0), Some(ProcStatus::Ended));
    assert_eq!(rt; group(&meaning.world, 4)?.as_slice(), [4, 5].as_slice());
    for (object, node) in [(3, 0), (4, 1), (5, 1), (6, 0)] {
        assert_eq!(rt; meaning.place(object)?, Some(node));
    }
    follow(
        alloc,
        &mut meaning,
        b"move 6 to 1\nmove 5 to 0\nmove 3 to 2\n",
    )?;
    for (object, node) in [(3, 0), (4, 0), (5, 0), (6, 1)] {
        assert_eq!(rt; meaning.place(object)?, Some(node));
    }
    Ok(())
}

/// A program that prints `hi`, on one node.
const FILES: [MemFile<'static>; 3] = [
    MemFile {
        name: "p",
        bytes: b"const main <- object main initially stdout.putstring[\"hi\"] end initially end main",
    },
    MemFile {
        name: "n",
        bytes: b"node = [{ name = 'a', kind = 'riscv', blocks = 4, text = 2 }]",
    },
    MemFile {
        name: "s",
        bytes: b"",
    },
];

#[test]
fn a_run_leaves_its_network(rt: HostRuntime) -> Result<(), Fail> {
    let alloc = rt.alloc();
    let mut shelf = MemShelf::new(alloc, &FILES, 100, &[])?;
    let mut sink = MemSink::new(alloc, 100, &[])?;
    let mut net = ManuallyDrop::new(Network::empty());
    assert!(rt; !net.is_whole());
    let words = ["emerald", "run", "p", "n", "s"];
    let status = emerald(alloc, &words, &mut shelf, &mut sink, &mut net);
    assert_eq!(rt; status, Status::Finished);
    assert!(rt; net.is_whole());
    assert_eq!(rt; net.process(0), Some(ProcStatus::Ended));
    assert_eq!(rt; net.output().as_slice(), b"hi".as_slice());
    assert_eq!(rt; net.is_fixed(1), Some(true));
    for (object, node) in [(1, 0), (3, 0), (3, 1), (4, 0)] {
        assert!(rt; net.can_move());
        assert!(rt; net.operator_move(alloc, object, node).is_ok());
        assert!(rt; net.is_whole());
        assert_eq!(rt; net.place(3), Some(0));
    }
    assert!(rt; net.is_whole());
    assert_eq!(rt; net.place(3), Some(0));
    assert_eq!(rt; net.find(0, 3).ok(), Some((0, 0)));
    Ok(())
}
