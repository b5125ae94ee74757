//! Numbers of a few bits, as they stand in an instruction.

ghost use Rattle.std.specs.Prelude.{◌≡◌, ◌<◌, ◌/◌, ◌%◌, ◌^◌};
ghost use Rattle.rv_isa.specs.Parts.{high_of, low_of};

/// The number of a register, 0 to 31.
#[derive(Clone, Copy, PartialEq, Eq, Debug)]
pub struct Register {
    pub number: u32,
    ghost in_range: { number < 2 ^ 5 },
}

/// How many bits a shift goes, 0 to 31.
#[derive(Clone, Copy, PartialEq, Eq, Debug)]
pub struct Amount {
    pub bits: u32,
    ghost in_range: { bits < 2 ^ 5 },
}

/// Twelve bits: a signed number in two's complement.
#[derive(Clone, Copy, PartialEq, Eq, Debug)]
pub struct Twelve {
    pub bits: u32,
    ghost in_range: { bits < 2 ^ 12 },
}

/// The upper twenty bits of a word.
#[derive(Clone, Copy, PartialEq, Eq, Debug)]
pub struct Twenty {
    pub bits: u32,
    ghost in_range: { bits < 2 ^ 20 },
}

/// How far a branch goes, in bytes: an even signed number of thirteen bits in two's complement.
#[derive(Clone, Copy, PartialEq, Eq, Debug)]
pub struct BranchOffset {
    pub bits: u32,
    ghost in_range: { bits < 2 ^ 13 },
    ghost even: { bits % 2 ≡ 0 },
}

/// How far a jump goes, in bytes: an even signed number of twenty-one bits in two's complement.
#[derive(Clone, Copy, PartialEq, Eq, Debug)]
pub struct JumpOffset {
    pub bits: u32,
    ghost in_range: { bits < 2 ^ 21 },
    ghost even: { bits % 2 ≡ 0 },
}

/// The number in `width` bits of a word, from bit `low` on.
pub fn field(word: u32, low: u32, width: u32) -> u32
    requires low { low < 32 }
    requires width { width < 32 }
    ensures { result ≡ word / 2 ^ low % 2 ^ width }
{
    (word >> low) & ((1 << width) - 1)
}

/// What LUI has of a number of which ADDI adds the low part: the assembler's %hi.
pub fn high_part(number: u32) -> Twenty
    ensures { result.bits ≡ high_of number }
{
    Twenty {
        bits: (number.wrapping_add(0x800)) >> 12,
    }
}

/// What ADDI adds to the high part of a number: the assembler's %lo.
pub fn low_part(number: u32) -> Twelve
    ensures { result.bits ≡ low_of number }
{
    Twelve {
        bits: field(number, 0, 12),
    }
}
