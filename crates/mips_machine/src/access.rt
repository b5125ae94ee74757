//! Numbers of one, two and four bytes in a memory, big-endian.

ghost use Rattle.std.specs.Prelude.{◌≡◌, ◌↔◌, ◌<◌, ◌^◌, IsTrue, IsSome, IfSome};
ghost use Rattle.std.specs.Option.{option_map};
ghost use Rattle.std.specs.Bool.{OnTrue, OnFalse};
ghost use Rattle.byteorder.specs.Endian.{big_number, big_bytes};
ghost use Rattle.ec_base.specs.Bytes.{bytes_from, with_bytes};
ghost use Rattle.mips_machine.specs.Step.{loaded};
ghost use Rattle.mips_machine.specs.Values.{load_size, store_size};

use crate::arithmetic::extended;
use byteorder::{BigEndian, ByteOrder};
use ec_world::memory::Memory;
use mips_isa::instr::{Load, Store};

/// How many bytes a load reads.
pub fn size_of_load(load: Load) -> u32
    ensures value { result ≡ load_size load }
    ensures some { 0 < result }
{
    match load {
        Load::Lb | Load::Lbu => 1,
        Load::Lh | Load::Lhu => 2,
        Load::Lw => 4,
    }
}

/// How many bytes a store writes.
pub fn size_of_store(store: Store) -> u32
    ensures value { result ≡ store_size store }
    ensures some { 0 < result }
{
    match store {
        Store::Sb => 1,
        Store::Sh => 2,
        Store::Sw => 4,
    }
}

/// What a load makes of the bytes at an address, or None where they aren't all there.
pub fn load_from<M: Memory>(memory: &M, load: Load, at: u32) -> Option<u32>
    ensures { result ≡ loaded load (M.byte_at memory.now) at }
{
    match load {
        Load::Lb => Some(extended(8, load_byte(memory, at)?)),
        Load::Lh => Some(extended(16, load_half(memory, at)?)),
        Load::Lw => load_word(memory, at),
        Load::Lbu => load_byte(memory, at),
        Load::Lhu => load_half(memory, at),
    }
}

/// Writes the lowest bytes of a word at an address, or answers false where the bytes there aren't all there.
pub fn store_to<M: Memory>(memory: &mut M, store: Store, at: u32, value: u32) -> bool
    ensures inside { IsTrue result ↔ IsSome (bytes_from (M.byte_at memory.old) at (store_size store)) }
    ensures written { OnTrue result (M.byte_at memory.new ≡ with_bytes (M.byte_at memory.old) at (big_bytes (store_size store) value)) }
    ensures outside { OnFalse result (memory.new ≡ memory.old) }
    ensures rest { M.alike memory.old memory.new }
{
    match store {
        Store::Sb => store_byte(memory, at, value),
        Store::Sh => store_half(memory, at, value),
        Store::Sw => store_word(memory, at, value),
    }
}

fn load_byte<M: Memory>(memory: &M, at: u32) -> Option<u32>
    ensures value { result ≡ option_map (big_number 1) (bytes_from (M.byte_at memory.now) at 1) }
    ensures small { IfSome result (λ n. n < 2 ^ 8) }
{
    let mut buffer = [0u8; 1];
    if !memory.load(at, &mut buffer) {
        return None;
    }
    Some(u32::from(buffer[0]))
}

fn load_half<M: Memory>(memory: &M, at: u32) -> Option<u32>
    ensures value { result ≡ option_map (big_number 2) (bytes_from (M.byte_at memory.now) at 2) }
    ensures small { IfSome result (λ n. n < 2 ^ 16) }
{
    let mut buffer = [0u8; 2];
    if !memory.load(at, &mut buffer) {
        return None;
    }
    Some(u32::from(BigEndian::read_u16(&buffer)))
}

fn load_word<M: Memory>(memory: &M, at: u32) -> Option<u32>
    ensures { result ≡ option_map (big_number 4) (bytes_from (M.byte_at memory.now) at 4) }
{
    let mut buffer = [0u8; 4];
    if !memory.load(at, &mut buffer) {
        return None;
    }
    Some(BigEndian::read_u32(&buffer))
}

fn store_byte<M: Memory>(memory: &mut M, at: u32, value: u32) -> bool
    ensures inside { IsTrue result ↔ IsSome (bytes_from (M.byte_at memory.old) at 1) }
    ensures written { OnTrue result (M.byte_at memory.new ≡ with_bytes (M.byte_at memory.old) at (big_bytes 1 value)) }
    ensures outside { OnFalse result (memory.new ≡ memory.old) }
    ensures rest { M.alike memory.old memory.new }
{
    memory.store(at, &[(value & 0xFF) as u8])
}

fn store_half<M: Memory>(memory: &mut M, at: u32, value: u32) -> bool
    ensures inside { IsTrue result ↔ IsSome (bytes_from (M.byte_at memory.old) at 2) }
    ensures written { OnTrue result (M.byte_at memory.new ≡ with_bytes (M.byte_at memory.old) at (big_bytes 2 value)) }
    ensures outside { OnFalse result (memory.new ≡ memory.old) }
    ensures rest { M.alike memory.old memory.new }
{
    let mut buffer = [0u8; 2];
    BigEndian::write_u16(&mut buffer, (value & 0xFFFF) as u16);
    memory.store(at, &buffer)
}

fn store_word<M: Memory>(memory: &mut M, at: u32, value: u32) -> bool
    ensures inside { IsTrue result ↔ IsSome (bytes_from (M.byte_at memory.old) at 4) }
    ensures written { OnTrue result (M.byte_at memory.new ≡ with_bytes (M.byte_at memory.old) at (big_bytes 4 value)) }
    ensures outside { OnFalse result (memory.new ≡ memory.old) }
    ensures rest { M.alike memory.old memory.new }
{
    let mut buffer = [0u8; 4];
    BigEndian::write_u32(&mut buffer, value);
    memory.store(at, &buffer)
}
