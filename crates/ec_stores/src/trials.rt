//! Trials of a store against values from outside.
ghost use Rattle.std.specs.Prelude.{◌≡◌, IfOk};

use crate::memory::NodeMemory;
use crate::node::NodeStore;
use crate::rows::class_blocks;
use ec_base::list::Seq;
use ec_world::class::{ClassNo, PlainType, VectorType};
use ec_world::memory::Memory;
use ec_world::node::Kind;
use ec_world::value::Text;
use std::alloc::{AllocError, Global};
use std::test::Fail;

const VECTOR: ClassNo = ClassNo::Vector(VectorType {
    inner: 0,
    of: PlainType::Integer,
});

#[test]
fn words_lie_in_the_order_of_the_kind(rt: HostRuntime) -> Result<(), Fail> {
    for (kind, lies) in [(Kind::Riscv, [0, 1, 0, 0]), (Kind::Mips, [0, 0, 1, 0])] {
        let mut node = NodeStore::new(rt.alloc(), kind, 0, 0, 2)?;
        assert_eq!(rt; node.global(0), 0);
        node.set_global(1, 256);
        assert_eq!(rt; node.global(1), 256);
        let mut bytes = [9; 4];
        assert!(rt; node.memory.load(0x2000_0004, &mut bytes));
        assert_eq!(rt; bytes, lies);
    }
    Ok(())
}

#[test]
fn bytes_lie_where_they_should(rt: HostRuntime) -> Result<(), Fail> {
    let mut memory = NodeMemory::new(rt.alloc(), Kind::Mips, 2, 1)?;
    let mut bytes = [9; 4];
    assert!(rt; memory.store(0x1000_03FC, &[1, 2, 3, 4]));
    assert!(rt; memory.load(0x1000_03FC, &mut bytes));
    assert_eq!(rt; bytes, [1, 2, 3, 4]);
    assert!(rt; !memory.load(0x1000_03FD, &mut bytes));
    Ok(())
}

#[test]
fn objects_have_enough_blocks(rt: HostRuntime) -> Result<(), Fail> {
    for (size, blocks) in [(0, 1), (1, 1), (128, 1), (129, 2), (256, 2), (257, 3)] {
        assert_eq!(rt; class_blocks(VECTOR, size), blocks);
    }
    assert_eq!(rt; class_blocks(ClassNo::Node, 0), 0);
    Ok(())
}

#[test]
fn a_vector_of_129_keeps_its_last_word(rt: HostRuntime) -> Result<(), Fail> {
    let mut node = NodeStore::new(rt.alloc(), Kind::Riscv, 2, 0, 0)?;
    assert!(rt; node.object(3).is_none());
    let mut words = [7; 129];
    words[128] = 77;
    node.create(3, VECTOR, 129, false, None, &words)?;
    assert_eq!(rt; node.free_blocks(), 0);
    assert_eq!(rt; node.object_word(3, 128), 77);
    assert_eq!(rt; node.object_word(3, 0), 7);
    assert!(rt; node.remove(3).is_none());
    assert_eq!(rt; node.free_blocks(), 2);
    Ok(())
}

#[test]
fn activations_come_and_go(rt: HostRuntime) -> Result<(), Fail> {
    let mut node = NodeStore::new(rt.alloc(), Kind::Mips, 1, 0, 0)?;
    assert!(rt; !node.has_frame(0, 4));
    node.begin(0, 4, 9, &[5, 6])?;
    assert!(rt; !node.has_frame(4, 0));
    let found = node.activations_on(rt.alloc(), 9)?;
    assert!(rt; found.as_slice() == [(0, 4)].as_slice());
    assert_eq!(rt; node.activations_on(rt.alloc(), 4)?.len(), 0);
    node.set_frame_word(0, 4, 1, 8);
    assert_eq!(rt; node.frame_word(0, 4, 1), 8);
    node.close(0, 4);
    assert_eq!(rt; node.free_blocks(), 1);
    Ok(())
}

#[test]
fn references_begin_at_one(rt: HostRuntime) -> Result<(), Fail> {
    let mut node = NodeStore::new(rt.alloc(), Kind::Riscv, 0, 0, 0)?;
    assert_eq!(rt; node.local_of(9)?, 1);
    assert_eq!(rt; node.local_of(4)?, 2);
    assert_eq!(rt; node.local_of(9)?, 1);
    assert!(rt; node.kind() == Kind::Riscv);
    assert_eq!(rt; node.count(), 0);
    Ok(())
}

#[test]
fn each_text_stands_once(rt: HostRuntime) -> Result<(), Fail> {
    let mut node = NodeStore::new(rt.alloc(), Kind::Mips, 0, 16, 0)?;
    let text = text_of(rt.alloc(), b"AB")?;
    assert!(rt; !node.has_text(&text));
    assert_eq!(rt; node.intern(text)?, 0);
    assert_eq!(rt; node.text_free(), 14);
    let same = text_of(rt.alloc(), b"AB")?;
    assert!(rt; node.has_text(&same));
    assert_eq!(rt; node.intern(same)?, 0);
    assert_eq!(rt; node.text_free(), 14);
    Ok(())
}

fn text_of(alloc: Global, bytes: &[u8]) -> Result<Text, AllocError>
    ensures { IfOk result (λ text. text ≡ bytes.now) }
{
    Ok(Seq::from_vec(Vec::from_slice(alloc, bytes)?))
}
