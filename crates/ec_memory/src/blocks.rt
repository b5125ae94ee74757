//! Blocks and globals, and which blocks are free.

ghost use Rattle.std.specs.Prelude.{◌≡◌, ◌+◌, ◌++◌, ◌≤◌, ◌<◌, ◌↔◌, Some, IsSome, IfSome, IfNone, IfOk, ◌-◌, ◌^◌, length};
ghost use Rattle.std.specs.List.{AllByRecursion};
ghost use Rattle.ec_base.specs.Bytes.{with_bytes};
ghost use Rattle.ec_memory.specs.Words.{HasWord, word_in};
ghost use Rattle.ec_memory.specs.Store.{SameLists, same_lists, same_lists_on, store_byte, chain, after, AreApart, Takes, Gives};
ghost use Rattle.ec_memory.specs.Store.{IsRising, IsNew, IsWhole};

use crate::region::{read_from, write_to};
use byteorder::ByteOrder;
use ec_world::memory::Memory;
use std::alloc::{AllocError, Global};
use std::marker::{Model, PhantomData};

/// Where block 0 lies. A block has 512 bytes.
const BLOCKS_BASE: u32 = 0x1000_0000;

/// Where global 0 lies. A global has 4 bytes.
const GLOBALS_BASE: u32 = 0x2000_0000;

/// A node's memory: at most 65,536 blocks of 512 bytes and at most 1,048,576 globals of 4 bytes, whose words lie in one
/// byte order. Each block leads to another one, so that a list of blocks is its first block and its length; the free
/// blocks are one such list.
#[derive(Drop)]
pub struct Blocks<O: ByteOrder> {
    blocks: Vec<u8>,
    globals: Vec<u8>,
    links: Vec<u32>,
    head: u32,
    free: u32,
    order: PhantomData<O>,
}

impl<O: ByteOrder> Model for Blocks<O> {
    ghost use Rattle.std.specs.Prelude.{◌≡◌, length};
    ghost use Rattle.ec_memory.specs.Store.{Store, IsWhole, chain};

    ghost Value = { Store };

    ghost view = { λ s.
        record { blocks = s.blocks.items; globals = s.globals.items; links = s.links.items; free = chain s.links.items s.head s.free } };

    ghost invariant = { λ s. IsWhole
        (record { blocks = s.blocks.items; globals = s.globals.items; links = s.links.items; free = chain s.links.items s.head s.free }) };
}

/// Blocks of one owner: the first, and how many.
#[derive(Drop)]
pub struct BlockList {
    pub first: u32,
    pub count: u32,
}

impl<O: ByteOrder> Blocks<O> {
    /// So many blocks and globals, all free and zero.
    pub fn new(alloc: Global, blocks: u32, globals: u32) -> Result<Blocks<O>, AllocError>
        requires few_blocks { blocks ≤ 65536 }
        requires few_globals { globals ≤ 1048576 }
        ensures new { IfOk result (λ new. IsNew new blocks globals) }
        ensures whole { IfOk result (λ new. IsWhole new) }
    {
        let links = rising(alloc, blocks)?;
        Ok(Blocks {
            blocks: vec![in alloc; 0; 512 * blocks as usize]?,
            globals: vec![in alloc; 0; 4 * globals as usize]?,
            links,
            head: 0,
            free: blocks,
            order: PhantomData,
        })
    }

    /// How many blocks are free.
    pub fn free(&self) -> u32
        ensures { result ≡ length self.now.free }
    {
        self.free
    }

    /// The word at an address.
    pub fn word(&self, at: u32) -> u32
        requires { HasWord (store_byte self.now) at }
        ensures { word_in O.number_of (store_byte self.now) at ≡ Some result }
    {
        let mut bytes = [0; 4];
        let _there = self.load(at, &mut bytes);
        O::read_u32(&bytes)
    }

    /// Writes the word at an address.
    pub fn set_word(&mut self, at: u32, word: u32)
        requires { HasWord (store_byte self.old) at }
        ensures bytes { store_byte self.new ≡ with_bytes (store_byte self.old) at (O.bytes_of 4 word) }
        ensures lists { SameLists self.old self.new }
    {
        let mut bytes = [0; 4];
        O::write_u32(&mut bytes, word);
        let _there = self.store(at, &bytes);
    }

    /// Takes so many free blocks, where there are as many. Their bytes stay as they were.
    pub fn take(&mut self, count: u32) -> Option<BlockList>
        ensures there { IsSome result ↔ (count ≤ length self.old.free) }
        ensures taken { IfSome result (λ list. (list.count ≡ count) × Takes self.old self.new list.first count) }
        ensures none { IfNone result (self.new ≡ self.old) }
    {
        if count > self.free {
            return None;
        }
        let first = self.head;
        self.head = after(&self.links, first, count);
        self.free -= count;
        Some(BlockList { first, count })
    }

    /// Gives back blocks that are no one else's and not free. Their bytes stay as they were.
    pub fn give(&mut self, list: BlockList)
        requires in_range { AllByRecursion (λ b. b < length self.old.links) (chain self.old.links list.first list.count) }
        requires apart { AreApart (chain self.old.links list.first list.count ++ self.old.free) }
        requires few { list.count + length self.old.free ≤ length self.old.links }
        ensures { Gives self.old self.new list.first list.count }
    {
        let BlockList { first, count } = list;
        if count == 0 {
            return;
        }
        let last = after(&self.links, first, count - 1);
        self.links[last as usize] = self.head;
        self.head = first;
        self.free += count;
    }
}

impl<O: ByteOrder> Memory for Blocks<O> {
    ghost byte_at = { store_byte };

    ghost alike = { SameLists };

    #[tactic(auto, using(crate::proofs::Regions::globals_read, crate::proofs::Regions::blocks_read, crate::proofs::Regions::nowhere_read, ec_base::specs::Bytes::empty_read))]
    fn load(&self, at: u32, to: &mut [u8]) -> bool {
        if to.is_empty() {
            return true;
        }
        if at >= GLOBALS_BASE {
            return read_from(&self.globals, (at - GLOBALS_BASE) as usize, to);
        }
        if at >= BLOCKS_BASE {
            return read_from(&self.blocks, (at - BLOCKS_BASE) as usize, to);
        }
        false
    }

    #[tactic(auto, using(crate::proofs::Regions::globals_read, crate::proofs::Regions::blocks_read, crate::proofs::Regions::nowhere_read, ec_base::specs::Bytes::empty_read))]
    fn store(&mut self, at: u32, from: &[u8]) -> bool {
        if from.is_empty() {
            return true;
        }
        if at >= GLOBALS_BASE {
            return write_to(&mut self.globals, (at - GLOBALS_BASE) as usize, from);
        }
        if at >= BLOCKS_BASE {
            return write_to(&mut self.blocks, (at - BLOCKS_BASE) as usize, from);
        }
        false
    }

    ghost alike_same = { λ m. same_lists m };

    ghost alike_on = { λ m n o p q. same_lists_on m n o p q };
}

// Links by which each block leads to the next one.
fn rising(alloc: Global, count: u32) -> Result<Vec<u32>, AllocError>
    requires { count < 2 ^ 32 - 1 }
    ensures { IfOk result (λ links. IsRising links.items count) }
{
    let mut links = Vec::new(alloc);
    for block in 0..count {
        links.push(block + 1)?;
    }
    Ok(links)
}

// Where a list leads after `count` blocks.
fn after(links: &[u32], first: u32, count: u32) -> u32
    requires { AllByRecursion (λ b. b < length links.now) (chain links.now first count) }
    ensures { result ≡ after links.now first count }
{
    let mut block = first;
    for _step in 0..count {
        block = links[block as usize];
    }
    block
}

#[cfg(test)]
mod tests {
    use super::*;
    use byteorder::{BigEndian, LittleEndian};
    use std::test::Fail;

    #[test]
    fn bytes_lie_where_they_should(rt: HostRuntime) -> Result<(), Fail> {
        let mut little: Blocks<LittleEndian> = Blocks::new(rt.alloc(), 2, 1)?;
        let mut big: Blocks<BigEndian> = Blocks::new(rt.alloc(), 2, 1)?;
        let mut bytes = [0; 4];
        assert!(rt; little.store(0x1000_03FC, &[0, 1, 0, 0]));
        assert!(rt; little.load(0x1000_03FC, &mut bytes));
        assert_eq!(rt; bytes, [0, 1, 0, 0]);
        assert!(rt; !little.load(0x1000_03FD, &mut bytes));
        assert!(rt; big.store(0x2000_0000, &[0, 0, 1, 0]));
        assert!(rt; !big.store(0x2000_0002, &[0, 1, 0, 0]));
        assert!(rt; !big.load(0x0FFF_FFFF, &mut bytes));
        Ok(())
    }

    #[test]
    fn takes_what_is_free(rt: HostRuntime) -> Result<(), Fail> {
        let mut blocks: Blocks<LittleEndian> = Blocks::new(rt.alloc(), 3, 0)?;
        assert!(rt; blocks.take(2).is_some());
        assert!(rt; blocks.take(2).is_none());
        assert_eq!(rt; blocks.free(), 1);
        assert!(rt; blocks.take(1).is_some());
        assert_eq!(rt; blocks.free(), 0);
        Ok(())
    }
}
