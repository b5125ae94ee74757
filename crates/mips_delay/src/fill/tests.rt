//! Codes before and after their slots are filled: the words, and the address of a stop.
ghost use Rattle.std.specs.Prelude.{◌<◌, length};

use super::fill;
use crate::links::has_links;
use ec_base::list::Seq;
use ec_machine_code::code::{Code, OperationCode};
use std::alloc::{AllocError, Global};

/// Words and the address of a stop, before and after.
type Row = (&'static [u32], u32, &'static [u32], u32);

/// The sum goes into the slot of the branch.
const FILLED: Row = (
    &[0x0108_4821, 0x114B_0002, 0, 0x0129_5021, 0x0000_000C],
    0x0040_0010,
    &[0x114B_0002, 0x0108_4821, 0x0129_5021, 0x0000_000C],
    0x0040_000C,
);

/// So it does where the branch leads back, and where a jump stands for it.
const LEADS_BACK: Row = (
    &[0x0000_000C, 0x0108_4821, 0x114B_FFFD, 0, 0x0000_000C],
    0x0040_0010,
    &[0x0000_000C, 0x114B_FFFE, 0x0108_4821, 0x0000_000C],
    0x0040_000C,
);

const JUMPS: Row = (
    &[0x0108_4821, 0x0810_0004, 0, 0x0129_5021, 0x0000_000C],
    0x0040_0010,
    &[0x0810_0003, 0x0108_4821, 0x0129_5021, 0x0000_000C],
    0x0040_000C,
);

/// The branch reads the sum.
const READ: Row = (
    &[0x0108_4821, 0x1109_0002, 0, 0x0129_5021, 0x0000_000C],
    0x0040_0010,
    &[0x0108_4821, 0x1109_0002, 0, 0x0129_5021, 0x0000_000C],
    0x0040_0010,
);

/// A load, and no branch at all.
const LOAD: Row = (
    &[0x8FA8_0004, 0x114B_0002, 0, 0x0129_5021, 0x0000_000C],
    0x0040_0010,
    &[0x8FA8_0004, 0x114B_0002, 0, 0x0129_5021, 0x0000_000C],
    0x0040_0010,
);

const NO_BRANCH: Row = (
    &[0x0108_4821, 0x0000_000C],
    0x0040_0004,
    &[0x0108_4821, 0x0000_000C],
    0x0040_0004,
);

/// A later branch goes to the first one's slot, and the first one to the later one.
const INTO_THE_SLOT: Row = (
    &[
        0x0108_4821,
        0x114B_0002,
        0,
        0x0129_5021,
        0x1000_FFFD,
        0,
        0x0000_000C,
    ],
    0x0040_0018,
    &[
        0x0108_4821,
        0x114B_0002,
        0,
        0x0129_5021,
        0x1000_FFFD,
        0,
        0x0000_000C,
    ],
    0x0040_0018,
);

#[test]
fn fills_slots(rt: HostRuntime) {
    let rows = [
        FILLED,
        LEADS_BACK,
        JUMPS,
        READ,
        LOAD,
        NO_BRANCH,
        INTO_THE_SLOT,
    ];
    for (words, stop, new_words, new_stop) in rows {
        assert!(rt; words.len() < 1000);
        let code = code_of(rt.alloc(), words, stop).expect(&rt, "there is memory");
        let old = code.words.as_slice();
        assert!(rt; old.len() < 1000);
        assert!(rt; !has_links(old));
        let new = fill(rt.alloc(), &code).expect(&rt, "there is memory");
        assert!(rt; new.words.as_slice() == new_words);
        let operation = new.operations.get(0).expect(&rt, "there is an operation");
        assert_eq!(rt; operation.words as usize, new_words.len());
        let moved = operation.stops.get(0).expect(&rt, "it has a stop");
        assert_eq!(rt; *moved, new_stop);
    }
}

/// A code of one operation with one stop.
fn code_of(alloc: Global, words: &[u32], stop: u32) -> Result<Code, AllocError>
    requires few { length words.now < 1000 }
{
    let mut list = Seq::new(alloc);
    for word in words {
        list.push(*word)?;
    }
    let mut stops = Seq::new(alloc);
    stops.push(stop)?;
    let mut operations = Seq::new(alloc);
    operations.push(OperationCode {
        words: words.len() as u32,
        stops,
    })?;
    Ok(Code {
        words: list,
        operations,
    })
}
