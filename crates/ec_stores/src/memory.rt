//! The memory of a node of either kind.
ghost use Rattle.std.specs.Prelude.{◌≡◌, ◌≤◌, ◌<◌, ◌↔◌, length, IfOk, IfSome, IfNone, IsSome, Some};
ghost use Rattle.ec_world.specs.Group.{Has};
ghost use Rattle.ec_memory.specs.Store.{IsWhole, IsNew};
ghost use Rattle.ec_memory.specs.Words.{HasWord};
ghost use Rattle.ec_stores.specs.Memory.{byte_in, held, kind_of, word_at, same_memory, same_memory_on};
ghost use Rattle.ec_stores.specs.Memory.{SameMemory, WritesAt, GivesFirst, GivesOne, TakesFirst, TakesOne};

use byteorder::{BigEndian, ByteOrder, LittleEndian};
use ec_memory::blocks::{BlockList, Blocks};
use ec_world::memory::Memory;
use ec_world::node::Kind;
use std::alloc::{AllocError, Global};

/// A node's blocks and constants: little-endian where its machine is a RISC-V, big-endian where it is a MIPS.
#[derive(Drop)]
pub enum NodeMemory {
    Little(Blocks<LittleEndian>),
    Big(Blocks<BigEndian>),
}

impl NodeMemory {
    /// So many blocks (at most 65,536) and constants (at most 1,048,576), all free and zero. The error is want of memory.
    pub fn new(
        alloc: Global,
        kind: Kind,
        blocks: u32,
        globals: u32,
    ) -> Result<NodeMemory, AllocError>
        requires few_blocks { blocks ≤ 65536 }
        requires few_globals { globals ≤ 1048576 }
        ensures new { IfOk result (λ new. IsNew (held new) blocks globals) }
        ensures whole { IfOk result (λ new. IsWhole (held new)) }
        ensures kind { IfOk result (λ new. kind_of new ≡ kind) }
    {
        match kind {
            Kind::Riscv => Ok(NodeMemory::Little(Blocks::new(alloc, blocks, globals)?)),
            Kind::Mips => Ok(NodeMemory::Big(Blocks::new(alloc, blocks, globals)?)),
        }
    }

    /// How many blocks are free.
    pub fn free(&self) -> u32
        ensures { result ≡ length (held self.now).free }
    {
        match self {
            NodeMemory::Little(blocks) => blocks.free(),
            NodeMemory::Big(blocks) => blocks.free(),
        }
    }

    /// The word at an address.
    pub fn word(&self, at: u32) -> u32
        requires { HasWord (byte_in self.now) at }
        ensures { word_at (kind_of self.now) self.now at ≡ Some result }
    {
        match self {
            NodeMemory::Little(blocks) => blocks.word(at),
            NodeMemory::Big(blocks) => blocks.word(at),
        }
    }

    /// Writes the word at an address.
    pub fn set_word(&mut self, at: u32, word: u32)
        requires { HasWord (byte_in self.old) at }
        ensures writes { WritesAt (kind_of self.old) self.old self.new at word }
        ensures same { SameMemory self.old self.new }
    {
        match self {
            NodeMemory::Little(blocks) => blocks.set_word(at, word),
            NodeMemory::Big(blocks) => blocks.set_word(at, word),
        }
    }

    /// Takes a free block, where there is one. Its bytes stay as they were.
    pub fn take(&mut self) -> Option<u32>
        ensures there { IsSome result ↔ (0 < length (held self.old).free) }
        ensures taken { IfSome result (λ block. TakesOne self.old self.new block) }
        ensures none { IfNone result (self.new ≡ self.old) }
    {
        match self {
            NodeMemory::Little(blocks) => take_one(blocks),
            NodeMemory::Big(blocks) => take_one(blocks),
        }
    }

    /// Gives a block back that isn't free. Its bytes stay as they were.
    pub fn give(&mut self, block: u32)
        requires whole { IsWhole (held self.old) }
        requires in_range { block < length (held self.old).links }
        requires taken { Has (held self.old).free block → ⊥ }
        ensures { GivesOne self.old self.new block }
    {
        match self {
            NodeMemory::Little(blocks) => give_one(blocks, block),
            NodeMemory::Big(blocks) => give_one(blocks, block),
        }
    }
}

impl Memory for NodeMemory {
    ghost byte_at = { byte_in };

    ghost alike = { SameMemory };

    fn load(&self, at: u32, to: &mut [u8]) -> bool {
        match self {
            NodeMemory::Little(blocks) => blocks.load(at, to),
            NodeMemory::Big(blocks) => blocks.load(at, to),
        }
    }

    fn store(&mut self, at: u32, from: &[u8]) -> bool {
        match self {
            NodeMemory::Little(blocks) => blocks.store(at, from),
            NodeMemory::Big(blocks) => blocks.store(at, from),
        }
    }

    ghost alike_same = { λ m. same_memory m };

    ghost alike_on = { λ m n o p q. same_memory_on m n o p q };
}

// Takes a free block, where there is one.
fn take_one<O: ByteOrder>(blocks: &mut Blocks<O>) -> Option<u32>
    ensures there { IsSome result ↔ (0 < length blocks.old.free) }
    ensures taken { IfSome result (λ block. TakesFirst blocks.old blocks.new block) }
    ensures none { IfNone result (blocks.new ≡ blocks.old) }
{
    match blocks.take(1) {
        Some(list) => Some(list.first),
        None => None,
    }
}

// Gives a block back that isn't free.
fn give_one<O: ByteOrder>(blocks: &mut Blocks<O>, block: u32)
    requires whole { IsWhole blocks.old }
    requires in_range { block < length blocks.old.links }
    requires taken { Has blocks.old.free block → ⊥ }
    ensures { GivesFirst blocks.old blocks.new block }
{
    blocks.give(BlockList {
        first: block,
        count: 1,
    });
}
