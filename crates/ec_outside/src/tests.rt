//! What the system's files and standard output do, and what shelves and sinks in memory answer call by call.
use crate::fault::Failed;
use crate::file_shelf::FileShelf;
use crate::mem_shelf::{MemFile, MemShelf};
use crate::mem_sink::{MemSink, ROOM};
use crate::out_sink::OutSink;
use crate::shelf::Shelf;
use crate::sink::Sink;
use crate::whole::{ReadError, read_whole, write_whole};
use std::fs;

#[test]
fn reads_a_file_in_pieces(rt: HostRuntime) {
    let words = ["pieces.txt", "missing.txt"];
    fs::write(&rt, "pieces.txt", "emerald").expect(&rt, "a file is written");
    let mut shelf = FileShelf::new(rt.alloc(), &rt, &words).expect(&rt, "there is memory");
    let mut buf = [0u8; 4];
    assert_eq!(rt; shelf.read_at("pieces.txt", 0, &mut buf), Ok(4));
    assert!(rt; buf == *b"emer");
    assert_eq!(rt; shelf.read_at("pieces.txt", 4, &mut buf), Ok(3));
    assert!(rt; &buf[..3] == b"ald".as_slice());
    assert_eq!(rt; shelf.read_at("pieces.txt", 7, &mut buf), Ok(0));
    assert_eq!(rt; shelf.read_at("missing.txt", 0, &mut buf), Err(Failed));
    assert_eq!(rt; shelf.read_at("other.txt", 0, &mut buf), Err(Failed));
    assert_eq!(rt;
        (
            shelf.faults("pieces.txt"),
            shelf.faults("missing.txt"),
            shelf.faults("other.txt")
        ),
        (0, 1, 1)
    );
    fs::remove_file(&rt, "pieces.txt").expect(&rt, "the file is there");
}

#[test]
fn puts_a_text_out(rt: HostRuntime) {
    let mut sink = OutSink::new(&rt);
    assert!(rt; write_whole(&mut sink, b"emerald\n") == Ok(()));
    assert_eq!(rt; sink.faults(), 0);
}

#[test]
fn fails_the_calls_that_are_listed(rt: HostRuntime) {
    let files = [
        MemFile {
            name: "one",
            bytes: b"abc",
        },
        MemFile {
            name: "two",
            bytes: b"",
        },
    ];
    // Three reads of a byte and one of the end; then one of the end alone.
    for (failing, one, two) in [
        (1, Err(ReadError::Failed), Ok(0)),
        (4, Err(ReadError::Failed), Ok(0)),
        (5, Ok(3), Err(ReadError::Failed)),
        (6, Ok(3), Ok(0)),
    ] {
        let listed = [failing];
        let mut shelf = MemShelf::new(rt.alloc(), &files, 1, &listed).expect(
            &rt,
            "there is memory",
        );
        let first = read_whole(rt.alloc(), &mut shelf, "one", 10).map(|bytes| bytes.len());
        assert!(rt; first == one, "call {failing} fails");
        let second = read_whole(rt.alloc(), &mut shelf, "two", 10).map(|bytes| bytes.len());
        assert!(rt; second == two, "call {failing} fails");
    }
}

#[test]
fn holds_what_was_taken_before_a_fault(rt: HostRuntime) {
    let failing = [3];
    let mut sink = MemSink::new(rt.alloc(), 4, &failing).expect(&rt, "there is memory");
    assert!(rt; write_whole(&mut sink, b"emerald tool") == Err(Failed));
    assert!(rt; sink.taken() == b"emerald ".as_slice());
    assert_eq!(rt; sink.put(b"tool"), Ok(4));
}

#[test]
fn fails_where_no_room_is_left(rt: HostRuntime) {
    let text = vec![in rt.alloc(); b'e'; ROOM - 1].expect(&rt, "there is memory");
    let mut sink = MemSink::new(rt.alloc(), usize::MAX, &[]).expect(&rt, "there is memory");
    assert!(rt; write_whole(&mut sink, &text) == Ok(()));
    assert_eq!(rt; sink.put(b"em"), Ok(1));
    assert_eq!(rt; sink.put(b""), Ok(0));
    assert_eq!(rt; sink.put(b"e"), Err(Failed));
    assert_eq!(rt; sink.taken().len(), ROOM);
}
