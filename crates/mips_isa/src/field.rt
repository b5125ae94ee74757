//! Numbers of a few bits, as they stand in an instruction.

ghost use Rattle.std.specs.Prelude.{◌≡◌, ◌≢◌, ◌<◌, ◌/◌, ◌%◌, ◌^◌};
ghost use Rattle.mips_isa.specs.Parts.{high_of, low_of};

/// The number of a register, 0 to 31.
#[derive(Clone, Copy, PartialEq, Eq, Debug)]
pub struct Register {
    pub number: u32,
    ghost in_range: { number < 2 ^ 5 },
}

/// How many bits a shift goes, 0 to 31.
#[derive(Clone, Copy, PartialEq, Eq, Debug)]
pub struct Amount {
    pub bits: u32,
    ghost in_range: { bits < 2 ^ 5 },
}

/// Sixteen bits.
#[derive(Clone, Copy, PartialEq, Eq, Debug)]
pub struct Sixteen {
    pub bits: u32,
    ghost in_range: { bits < 2 ^ 16 },
}

/// Where a jump goes, in words: the lower twenty-six bits.
#[derive(Clone, Copy, PartialEq, Eq, Debug)]
pub struct Target {
    pub words: u32,
    ghost in_range: { words < 2 ^ 26 },
}

/// The registers of a jump that links: the one that gets the link, and the one that holds the target. They differ.
#[derive(Clone, Copy, PartialEq, Eq, Debug)]
pub struct Link {
    pub rd: Register,
    pub rs: Register,
    ghost two: { rd.number ≢ rs.number },
}

/// The number in `width` bits of a word, from bit `low` on.
pub fn field(word: u32, low: u32, width: u32) -> u32
    requires low { low < 32 }
    requires width { width < 32 }
    ensures { result ≡ word / 2 ^ low % 2 ^ width }
{
    (word >> low) & ((1 << width) - 1)
}

/// What LUI has of a number of which ADDIU, a load or a store adds the low part: the assembler's %hi.
pub fn high_part(number: u32) -> Sixteen
    ensures { result.bits ≡ high_of number }
{
    Sixteen {
        bits: (number.wrapping_add(0x8000)) >> 16,
    }
}

/// What ADDIU, a load or a store adds to the high part of a number: the assembler's %lo.
pub fn low_part(number: u32) -> Sixteen
    ensures { result.bits ≡ low_of number }
{
    Sixteen {
        bits: field(number, 0, 16),
    }
}
