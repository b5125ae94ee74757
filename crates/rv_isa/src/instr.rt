//! The instructions of RV32IM, but for FENCE and EBREAK.

use crate::field::{Amount, BranchOffset, JumpOffset, Register, Twelve, Twenty};

/// What a branch tests of rs1 and rs2.
#[derive(Clone, Copy, PartialEq, Eq, Debug)]
pub enum Branch {
    /// They are equal.
    Beq,
    /// They differ.
    Bne,
    /// rs1 is less, both signed.
    Blt,
    /// rs1 isn't less, both signed.
    Bge,
    /// rs1 is less, both unsigned.
    Bltu,
    /// rs1 isn't less, both unsigned.
    Bgeu,
}

/// What a load reads.
#[derive(Clone, Copy, PartialEq, Eq, Debug)]
pub enum Load {
    /// A signed byte.
    Lb,
    /// A signed half.
    Lh,
    /// A word.
    Lw,
    /// An unsigned byte.
    Lbu,
    /// An unsigned half.
    Lhu,
}

/// What a store writes.
#[derive(Clone, Copy, PartialEq, Eq, Debug)]
pub enum Store {
    /// The lowest byte.
    Sb,
    /// The lower half.
    Sh,
    /// The word.
    Sw,
}

/// An operation on a register and a signed number in the instruction.
#[derive(Clone, Copy, PartialEq, Eq, Debug)]
pub enum Immediate {
    Addi,
    /// 1 where the register is less, both signed, else 0.
    Slti,
    /// 1 where the register is less, both unsigned, else 0.
    Sltiu,
    Xori,
    Ori,
    Andi,
}

/// A shift by a number in the instruction.
#[derive(Clone, Copy, PartialEq, Eq, Debug)]
pub enum Shift {
    /// To the left.
    Slli,
    /// To the right, with zeros from the left.
    Srli,
    /// To the right, with copies of the sign from the left.
    Srai,
}

/// An operation on two registers.
#[derive(Clone, Copy, PartialEq, Eq, Debug)]
pub enum Operation {
    Add,
    Sub,
    Sll,
    Slt,
    Sltu,
    Xor,
    Srl,
    Sra,
    Or,
    And,
    /// The lower word of the product.
    Mul,
    /// The upper word of the product of two signed numbers.
    Mulh,
    /// The upper word of the product of a signed number, rs1, and an unsigned one.
    Mulhsu,
    /// The upper word of the product of two unsigned numbers.
    Mulhu,
    /// The quotient of signed numbers, rounded towards zero.
    Div,
    /// The quotient of unsigned numbers, rounded down.
    Divu,
    /// The remainder of Div.
    Rem,
    /// The remainder of Divu.
    Remu,
}

/// An instruction.
#[derive(Clone, Copy, PartialEq, Eq, Debug)]
pub enum Instr {
    /// rd becomes the twenty bits, followed by twelve zeros.
    Lui {
        rd: Register,
        high: Twenty,
    },
    /// rd becomes the sum of that and the instruction's own place.
    Auipc {
        rd: Register,
        high: Twenty,
    },
    /// Jumps so far from here; rd becomes the place behind the instruction.
    Jal {
        rd: Register,
        offset: JumpOffset,
    },
    /// Jumps to rs1 plus the offset, made even; rd becomes the place behind the instruction.
    Jalr {
        rd: Register,
        rs1: Register,
        offset: Twelve,
    },
    /// Jumps so far from here where the test holds.
    BranchIf {
        branch: Branch,
        rs1: Register,
        rs2: Register,
        offset: BranchOffset,
    },
    /// rd becomes what is read at rs1 plus the offset.
    LoadFrom {
        load: Load,
        rd: Register,
        rs1: Register,
        offset: Twelve,
    },
    /// What is at rs1 plus the offset becomes rs2.
    StoreTo {
        store: Store,
        rs1: Register,
        rs2: Register,
        offset: Twelve,
    },
    /// rd becomes the operation on rs1 and the number.
    OnImmediate {
        operation: Immediate,
        rd: Register,
        rs1: Register,
        number: Twelve,
    },
    /// rd becomes rs1 shifted so far.
    OnShift {
        shift: Shift,
        rd: Register,
        rs1: Register,
        amount: Amount,
    },
    /// rd becomes the operation on rs1 and rs2.
    OnRegisters {
        operation: Operation,
        rd: Register,
        rs1: Register,
        rs2: Register,
    },
    /// A stop.
    Ecall,
}
