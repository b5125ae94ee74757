//! Instructions, by their registers and numbers.
ghost use Rattle.std.specs.Prelude.{◌≡◌, ◌+◌, ◌-◌, ◌*◌, ◌<◌, ◌≤◌, ◌^◌, [], ◌∷◌, ◌++◌, OnOk};
ghost use Rattle.ec_machine_code.specs.Speaks.{words_end};
ghost use Rattle.rv_isa.specs.Words.{word_of};
ghost use Rattle.rv_code.specs.Words as spec;

use ec_base::list::Seq;
use rv_isa::field::{BranchOffset, JumpOffset, Register, Twelve, Twenty};
use rv_isa::instr::{Branch, Immediate, Instr, Load, Operation, Store};
use rv_isa::word::encode;
use std::alloc::AllocError;

/// How far offsets of jumps go before they come round, in bytes.
const ROUND: u32 = 0x0020_0000;

pub(crate) const ZERO: Register = Register { number: 0 };

/// Scratch of first sources and of results that don't stay in a register.
pub(crate) const A: Register = Register { number: 5 };

/// Scratch of second sources.
pub(crate) const B: Register = Register { number: 6 };

/// Has the address of the frame.
pub(crate) const FRAME: Register = Register { number: 8 };

/// Has the address of the own object.
pub(crate) const OWN: Register = Register { number: 9 };

/// Writes one instruction. The error is want of memory.
pub(crate) fn put(words: &mut Seq<u32>, instr: Instr) -> Result<(), AllocError>
    ensures { OnOk result (words.new ≡ words.old ++ word_of instr ∷ []) }
{
    words.push(encode(instr))
}

pub(crate) fn lui(rd: Register, high: Twenty) -> Instr
    ensures { word_of result ≡ spec.lui rd.number high.bits }
{
    Instr::Lui { rd, high }
}

pub(crate) fn load(rd: Register, base: Register, offset: Twelve) -> Instr
    ensures { word_of result ≡ spec.lw rd.number base.number offset.bits }
{
    Instr::LoadFrom {
        load: Load::Lw,
        rd,
        rs1: base,
        offset,
    }
}

pub(crate) fn store(rs: Register, base: Register, offset: Twelve) -> Instr
    ensures { word_of result ≡ spec.sw rs.number base.number offset.bits }
{
    Instr::StoreTo {
        store: Store::Sw,
        rs1: base,
        rs2: rs,
        offset,
    }
}

pub(crate) fn on_number(operation: Immediate, rd: Register, rs1: Register, number: Twelve) -> Instr
    ensures { word_of result ≡ spec.on_number operation rd.number rs1.number number.bits }
{
    Instr::OnImmediate {
        operation,
        rd,
        rs1,
        number,
    }
}

pub(crate) fn on_registers(
    operation: Operation,
    rd: Register,
    rs1: Register,
    rs2: Register,
) -> Instr
    ensures { word_of result ≡ spec.on_registers operation rd.number rs1.number rs2.number }
{
    Instr::OnRegisters {
        operation,
        rd,
        rs1,
        rs2,
    }
}

pub(crate) fn branch(branch: Branch, rs1: Register, rs2: Register, offset: BranchOffset) -> Instr
    ensures { word_of result ≡ spec.branch branch rs1.number rs2.number offset.bits }
{
    Instr::BranchIf {
        branch,
        rs1,
        rs2,
        offset,
    }
}

/// From a word to another, at most 2^18 words away.
pub(crate) fn jump(from: u32, to: u32) -> Instr
    requires from { from ≤ words_end }
    requires to { to ≤ words_end }
    requires near { from ≤ to + 2 ^ 18 }
    ensures { word_of result ≡ spec.jump (spec.distance from to) }
{
    Instr::Jal {
        rd: ZERO,
        offset: JumpOffset {
            bits: (ROUND + 4 * to - 4 * from) % ROUND,
        },
    }
}

pub(crate) fn jump_there(rs1: Register, offset: Twelve) -> Instr
    ensures { word_of result ≡ spec.jump_there rs1.number offset.bits }
{
    Instr::Jalr {
        rd: ZERO,
        rs1,
        offset,
    }
}
