//! Lists of blocks: taken, read, written and given back.
ghost use Rattle.std.specs.Prelude.{◌≡◌, ◌≤◌, ◌<◌, ◌*◌, ◌/◌, ◌%◌, ℕ, length, slice_get, Some, IfOk, OnErr};
ghost use Rattle.std.specs.List.{AllByRecursion};
ghost use Rattle.ec_world.specs.Group.{Has};
ghost use Rattle.ec_memory.specs.Store.{IsWhole};
ghost use Rattle.ec_memory.specs.Words.{block_word_at, global_word_at};
ghost use Rattle.ec_stores.specs.Memory.{held, kind_of, word_at, SameMemory, WritesAt};
ghost use Rattle.ec_stores.specs.Lists.{IsOnce, FilledList, GivesList, TakesList, TakesSome, WrittenList};

use crate::memory::NodeMemory;
use ec_base::list::Seq;
use std::alloc::{AllocError, Global};

/// Takes so many free blocks, which then begin with these words. The error is want of memory; blocks that were taken stay taken.
pub(crate) fn take_filled(
    memory: &mut NodeMemory,
    alloc: Global,
    count: u32,
    words: &[u32],
) -> Result<Seq<u32>, AllocError>
    requires whole { IsWhole (held memory.old) }
    requires room { count ≤ length (held memory.old).free }
    requires short { length words.now ≤ 128 * count }
    ensures filled { IfOk result (λ blocks. FilledList memory.old memory.new blocks words.now) }
    ensures many { IfOk result (λ blocks. length blocks ≡ count) }
    ensures err { OnErr result (TakesSome memory.old memory.new) }
{
    let blocks = take_list(memory, alloc, count)?;
    write_list(memory, blocks.as_slice(), words);
    Ok(blocks)
}

/// Gives blocks back.
pub(crate) fn give_list(memory: &mut NodeMemory, blocks: &[u32])
    requires whole { IsWhole (held memory.old) }
    requires blocks_in { AllByRecursion (λ b. b < length (held memory.old).links) blocks.now }
    requires once { IsOnce blocks.now }
    requires taken { (b : ℕ) → Has blocks.now b → Has (held memory.old).free b → ⊥ }
    ensures { GivesList memory.old memory.new blocks.now }
{
    for i in 0..blocks.len() {
        memory.give(blocks[i]);
    }
}

/// Word i of these blocks, which have 128 each.
pub(crate) fn word_of(memory: &NodeMemory, blocks: &[u32], i: u32) -> u32
    requires whole { IsWhole (held memory.now) }
    requires blocks_in { AllByRecursion (λ b. b < length (held memory.now).links) blocks.now }
    requires within { i < 128 * length blocks.now }
    ensures { (b : ℕ) → slice_get blocks.now (i / 128) ≡ Some b →
        word_at (kind_of memory.now) memory.now (block_word_at b (i % 128)) ≡ Some result }
{
    memory.word(block_word(blocks[i as usize / 128], i % 128))
}

/// Writes word i of these blocks.
pub(crate) fn set_word_of(memory: &mut NodeMemory, blocks: &[u32], i: u32, word: u32)
    requires whole { IsWhole (held memory.old) }
    requires blocks_in { AllByRecursion (λ b. b < length (held memory.old).links) blocks.now }
    requires within { i < 128 * length blocks.now }
    ensures writes { (b : ℕ) → slice_get blocks.now (i / 128) ≡ Some b →
        WritesAt (kind_of memory.old) memory.old memory.new (block_word_at b (i % 128)) word }
    ensures same { SameMemory memory.old memory.new }
{
    memory.set_word(block_word(blocks[i as usize / 128], i % 128), word);
}

/// Where constant i lies.
pub(crate) fn global_word(i: u32) -> u32
    requires { i < 1048576 }
    ensures { result ≡ global_word_at i }
{
    0x2000_0000 + 4 * i
}

// Takes so many free blocks, one by one.
fn take_list(memory: &mut NodeMemory, alloc: Global, count: u32) -> Result<Seq<u32>, AllocError>
    requires room { count ≤ length (held memory.old).free }
    ensures taken { IfOk result (λ blocks. TakesList memory.old memory.new blocks) }
    ensures many { IfOk result (λ blocks. length blocks ≡ count) }
    ensures err { OnErr result (TakesSome memory.old memory.new) }
{
    let mut blocks = Seq::new(alloc);
    for i in 0..count {
        match memory.take() {
            Some(block) => blocks.push(block)?,
            None => unreachable!(),
        }
    }
    Ok(blocks)
}

// Writes words from the first word of these blocks on.
fn write_list(memory: &mut NodeMemory, blocks: &[u32], given: &[u32])
    requires whole { IsWhole (held memory.old) }
    requires blocks_in { AllByRecursion (λ b. b < length (held memory.old).links) blocks.now }
    requires once { IsOnce blocks.now }
    requires short { length given.now ≤ 128 * length blocks.now }
    ensures { WrittenList (kind_of memory.old) memory.old memory.new blocks.now given.now (length given.now) }
{
    for i in 0..given.len() {
        memory.set_word(block_word(blocks[i / 128], (i % 128) as u32), given[i]);
    }
}

// Where word i of a block lies.
fn block_word(block: u32, i: u32) -> u32
    requires few { block < 65536 }
    requires in_block { i < 128 }
    ensures { result ≡ block_word_at block i }
{
    0x1000_0000 + 512 * block + 4 * i
}
