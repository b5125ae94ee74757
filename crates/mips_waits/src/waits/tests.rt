//! Codes before and after needless no-ops are dropped: the words, and the address of a stop.
ghost use Rattle.std.specs.Prelude.{◌<◌, length};

use super::drop_waits;
use ec_base::list::Seq;
use ec_machine_code::code::{Code, OperationCode};
use mips_delay::links::has_links;
use std::alloc::{AllocError, Global};

/// Words and the address of a stop, before and after.
type Row = (&'static [u32], u32, &'static [u32], u32);

const STOP: u32 = 0x0000_000C;

const MFLO: u32 = 0x0000_4012;

const MULT: u32 = 0x0109_0018;

const SUM: u32 = 0x0108_4821;

/// $8 is loaded, which SUM reads, or $10.
const LOAD: u32 = 0x8FC8_0000;

const OTHER_LOAD: u32 = 0x8FCA_0004;

/// Sums alone come next; so they do behind the stop, where MULT stands.
const DROPPED: Row = (
    &[STOP, MFLO, 0, 0, SUM, STOP],
    0x0040_0014,
    &[STOP, MFLO, SUM, STOP],
    0x0040_000C,
);

const STOP_NEXT: Row = (
    &[STOP, MFLO, 0, 0, STOP, MULT, STOP],
    0x0040_0010,
    &[STOP, MFLO, STOP, MULT, STOP],
    0x0040_0008,
);

/// HI and LO are written by the third instruction, the second, the first.
const THIRD: Row = (
    &[STOP, MFLO, 0, 0, SUM, SUM, MULT, STOP],
    0x0040_001C,
    &[STOP, MFLO, SUM, SUM, MULT, STOP],
    0x0040_0014,
);

const SECOND: Row = (
    &[STOP, MFLO, 0, 0, SUM, MULT, STOP],
    0x0040_0018,
    &[STOP, MFLO, 0, 0, SUM, MULT, STOP],
    0x0040_0018,
);

const FIRST: Row = (
    &[STOP, MFLO, 0, 0, MULT, STOP],
    0x0040_0014,
    &[STOP, MFLO, 0, 0, MULT, STOP],
    0x0040_0014,
);

/// MULT stands in the slot of the branch that comes next.
const IN_THE_SLOT: Row = (
    &[STOP, MFLO, 0, 0, 0x1000_0001, MULT, STOP],
    0x0040_0018,
    &[STOP, MFLO, 0, 0, 0x1000_0001, MULT, STOP],
    0x0040_0018,
);

/// A branch leads over the no-ops, forth and back; and to one of them.
const LED_OVER: Row = (
    &[0x1000_0005, 0, MFLO, 0, 0, SUM, 0x1000_FFFB, 0, STOP],
    0x0040_0020,
    &[0x1000_0003, 0, MFLO, SUM, 0x1000_FFFD, 0, STOP],
    0x0040_0018,
);

const LED_THERE: Row = (
    &[STOP, MFLO, 0, 0, SUM, 0x1000_FFFD, 0, STOP],
    0x0040_001C,
    &[STOP, MFLO, 0, 0, SUM, 0x1000_FFFD, 0, STOP],
    0x0040_001C,
);

/// Neither load is needed at once.
const LOADS: Row = (
    &[STOP, LOAD, 0, OTHER_LOAD, 0, SUM, STOP],
    0x0040_0018,
    &[STOP, LOAD, OTHER_LOAD, SUM, STOP],
    0x0040_0010,
);

/// What is loaded is needed at once; a stop comes next; MULT would be the second behind a read.
const LOAD_NEEDED: Row = (
    &[STOP, LOAD, 0, SUM, STOP],
    0x0040_0010,
    &[STOP, LOAD, 0, SUM, STOP],
    0x0040_0010,
);

const LOAD_STOP: Row = (
    &[STOP, LOAD, 0, STOP],
    0x0040_000C,
    &[STOP, LOAD, 0, STOP],
    0x0040_000C,
);

const LOAD_PRODUCT: Row = (
    &[STOP, MFLO, OTHER_LOAD, 0, MULT, STOP],
    0x0040_0014,
    &[STOP, MFLO, OTHER_LOAD, 0, MULT, STOP],
    0x0040_0014,
);

/// A branch leads to the no-op.
const LOAD_LED_THERE: Row = (
    &[STOP, OTHER_LOAD, 0, SUM, 0x1000_FFFD, 0, STOP],
    0x0040_0018,
    &[STOP, OTHER_LOAD, 0, SUM, 0x1000_FFFD, 0, STOP],
    0x0040_0018,
);

#[test]
fn drops_waits(rt: HostRuntime) {
    let rows = [
        DROPPED,
        STOP_NEXT,
        THIRD,
        SECOND,
        FIRST,
        IN_THE_SLOT,
        LED_OVER,
        LED_THERE,
        LOADS,
        LOAD_NEEDED,
        LOAD_STOP,
        LOAD_PRODUCT,
        LOAD_LED_THERE,
    ];
    for (words, stop, new_words, new_stop) in rows {
        assert!(rt; words.len() < 1000);
        let code = code_of(rt.alloc(), words, stop).expect(&rt, "there is memory");
        let old = code.words.as_slice();
        assert!(rt; old.len() < 1000);
        assert!(rt; !has_links(old));
        let new = drop_waits(rt.alloc(), &code).expect(&rt, "there is memory");
        assert!(rt; new.words.as_slice() == new_words);
        let operation = new.operations.get(0).expect(&rt, "there is an operation");
        assert_eq!(rt; operation.words as usize, new_words.len());
        let moved = operation.stops.get(0).expect(&rt, "it has a stop");
        assert_eq!(rt; *moved, new_stop);
    }
}

/// A code of one operation with one stop.
fn code_of(alloc: Global, words: &[u32], stop: u32) -> Result<Code, AllocError>
    requires few { length words.now < 1000 }
{
    let mut list = Seq::new(alloc);
    for word in words {
        list.push(*word)?;
    }
    let mut stops = Seq::new(alloc);
    stops.push(stop)?;
    let mut operations = Seq::new(alloc);
    operations.push(OperationCode {
        words: words.len() as u32,
        stops,
    })?;
    Ok(Code {
        words: list,
        operations,
    })
}
