//! Parcels spelled by hand, and bytes that are cut short or break a rule.
use super::*;
use ec_monitors::record::Hold;
use ec_world::value::Value;
use parcel::{ActivationPart, MonitorPart, ObjectPart};
use std::process::Abort;
use std::test::Fail;

/// The parcel of object 3, of class 0, with no values.
const SMALL: &[u8] = b"454D5601 00000001 00000003 00000000 00000000 00000000 00000000";

/// That parcel, and one byte more.
const ONE_MORE: &[u8] = b"454D5601 00000001 00000003 00000000 00000000 00000000 00000000 00";

/// That parcel twice in a row.
const TWICE: &[u8] = b"454D5601 00000001 00000003 00000000 00000000 00000000 00000000
    454D5601 00000001 00000003 00000000 00000000 00000000 00000000";

/// It claims to hold 4,294,967,295 objects.
const MANY: &[u8] = b"454D5601 FFFFFFFF 00000003 00000000 00000000 00000000 00000000";

/// Its object has one value, a truth value 2.
const TRUTH_TWO: &[u8] = b"454D5601 00000001 00000003 00000000 00000001 02 02 00000000 00000000";

/// Two objects with values of every kind; the monitor of the first, held, with two processes at its entry, one that is urgent, and
/// two conditions, for the second of which one waits; two activations of one process.
const WHOLE: &[u8] = b"454D5601
    00000002
    00000003 00000002 00000005  00  01 FFFFFFFE  02 01  03 00000002 6869  04 00000007
    00000007 00000001 00000002  01 00000102  02 00
    00000001
    00000003  01 00000005 00000002  00000002 00000006 00000004  00000001 00000008 00000001
    00000002  00000000  00000001 00000009 00000003
    00000002
    00000005 00000000 0000000A 00000002 00 00000003  00000001  04 00000007
    00000005 00000001 0000000B 00000004 01 00000003  00000000";

fn digit(b: u8) -> Option<u8> {
    match b {
        b'0'..=b'9' => Some(b.wrapping_sub(b'0')),
        b'A'..=b'F' => Some(b.wrapping_sub(b'A').wrapping_add(10)),
        _ => None,
    }
}

/// The bytes that a text spells in hexadecimal; spaces and line feeds stand for nothing.
fn bytes_of(alloc: Global, text: &[u8]) -> Result<Vec<u8>, AllocError> {
    let mut bytes = Vec::new(alloc);
    let mut high = None;
    for b in text {
        match (digit(*b), high) {
            (None, _) => {}
            (Some(first), None) => high = Some(first),
            (Some(second), Some(first)) => {
                bytes.push(first.wrapping_mul(16).wrapping_add(second))?;
                high = None;
            }
        }
    }
    Ok(bytes)
}

/// Where the first so many bytes are refused; `None` where they are a parcel.
fn refused_at(alloc: Global, text: &[u8], count: usize) -> Result<Option<usize>, AllocError> {
    let bytes = bytes_of(alloc, text)?;
    let front = &bytes[..count.min(bytes.len())];
    match read(alloc, front) {
        Ok(_) => Ok(None),
        Err(ReadError::Wire(fault)) => Ok(Some(fault.at)),
        Err(ReadError::Memory) => Err(AllocError),
    }
}

#[test]
fn each_fault_has_its_place(rt: HostRuntime) -> Result<(), Fail> {
    let table = [
        (SMALL, 28, None),
        (SMALL, 0, Some(0)),
        (SMALL, 1, Some(0)),
        (SMALL, 2, Some(0)),
        (SMALL, 3, Some(3)),
        (SMALL, 4, Some(4)),
        (SMALL, 7, Some(4)),
        (SMALL, 8, Some(8)),
        (SMALL, 11, Some(8)),
        (SMALL, 12, Some(12)),
        (SMALL, 15, Some(12)),
        (SMALL, 16, Some(16)),
        (SMALL, 19, Some(16)),
        (SMALL, 20, Some(20)),
        (SMALL, 23, Some(20)),
        (SMALL, 24, Some(24)),
        (SMALL, 27, Some(24)),
        (ONE_MORE, 29, Some(28)),
        (TWICE, 56, Some(28)),
        (MANY, 28, Some(20)),
        (TRUTH_TWO, 30, Some(21)),
        (WHOLE, 179, None),
    ];
    for (text, count, at) in table {
        assert_eq!(rt; refused_at(rt.alloc(), text, count)?, at);
    }
    Ok(())
}

/// What a value is to be.
#[derive(Clone, Copy)]
enum Wanted {
    Int(i32),
    Bool(bool),
    Str(&'static [u8]),
    Ref(u32),
    Nil,
}

fn is_wanted(wanted: Wanted, value: &Value) -> bool {
    match (wanted, value) {
        (Wanted::Int(a), Value::Int(b)) => a == *b,
        (Wanted::Bool(a), Value::Bool(b)) => a == *b,
        (Wanted::Str(a), Value::Str(b)) => a == b.as_slice(),
        (Wanted::Ref(a), Value::Ref(b)) => a == *b,
        (Wanted::Nil, Value::Nil) => true,
        _ => false,
    }
}

fn have_values(rt: &impl Abort, values: &[Value], wanted: &[Wanted]) {
    assert_eq!(rt; values.len(), wanted.len());
    for (value, one) in values.iter().zip(wanted.iter()) {
        assert!(rt; is_wanted(*one, value));
    }
}

fn are_the_objects(rt: &impl Abort, objects: &[ObjectPart]) {
    match objects {
        [first, second] => {
            assert_eq!(rt; (first.number, first.class), (3, 2));
            let kinds = [
                Wanted::Nil,
                Wanted::Int(-2),
                Wanted::Bool(true),
                Wanted::Str(b"hi"),
                Wanted::Ref(7),
            ];
            have_values(rt, first.values.as_slice(), &kinds);
            assert_eq!(rt; (second.number, second.class), (7, 1));
            have_values(
                rt,
                second.values.as_slice(),
                &[Wanted::Int(258), Wanted::Bool(false)],
            );
        }
        _ => panic!(rt; "two objects"),
    }
}

fn are_the_monitors(rt: &impl Abort, monitors: &[MonitorPart]) {
    match monitors {
        [part] => {
            let monitor = &part.monitor;
            assert_eq!(rt; part.object, 3);
            assert!(rt;
                monitor.holder
                    == Some(Hold {
                        process: 5,
                        depth: 2
                    })
            );
            assert!(rt; monitor.entry.as_slice() == [6, 4].as_slice());
            assert!(rt;
                monitor.urgent.as_slice()
                    == [Hold {
                        process: 8,
                        depth: 1
                    }]
                    .as_slice()
            );
            match monitor.conditions.as_slice() {
                [first, second] => {
                    assert_eq!(rt; first.len(), 0);
                    assert!(rt;
                        second.as_slice()
                            == [Hold {
                                process: 9,
                                depth: 3
                            }]
                            .as_slice()
                    );
                }
                _ => panic!(rt; "two conditions"),
            }
        }
        _ => panic!(rt; "one monitor"),
    }
}

fn are_the_activations(rt: &impl Abort, activations: &[ActivationPart]) {
    match activations {
        [below, above] => {
            assert_eq!(rt; (below.process, below.depth, below.operation), (5, 0, 10));
            assert_eq!(rt; (below.stop, below.is_pending, below.own), (2, false, 3));
            have_values(rt, below.values.as_slice(), &[Wanted::Ref(7)]);
            assert_eq!(rt; (above.process, above.depth, above.operation), (5, 1, 11));
            assert_eq!(rt; (above.stop, above.is_pending, above.own), (4, true, 3));
            have_values(rt, above.values.as_slice(), &[]);
        }
        _ => panic!(rt; "two activations"),
    }
}

#[test]
fn a_parcel_of_everything_is_read_and_written(rt: HostRuntime) -> Result<(), Fail> {
    let bytes = bytes_of(rt.alloc(), WHOLE)?;
    let parcel = read(rt.alloc(), &bytes)?;
    are_the_objects(&rt, parcel.objects());
    are_the_monitors(&rt, parcel.monitors());
    are_the_activations(&rt, parcel.activations());
    let again = Parcel::new(parcel.into_contents());
    assert!(rt; write(rt.alloc(), &again)?.as_slice() == bytes.as_slice());
    Ok(())
}
