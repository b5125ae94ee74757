//! The instructions of MIPS I, but for BREAK, unaligned accesses and coprocessors.

use crate::field::{Amount, Link, Register, Sixteen, Target};

/// A shift by a number in the instruction.
#[derive(Clone, Copy, PartialEq, Eq, Debug)]
pub enum Shift {
    /// To the left.
    Sll,
    /// To the right, with zeros from the left.
    Srl,
    /// To the right, with copies of the sign from the left.
    Sra,
}

/// A shift by the low five bits of a register.
#[derive(Clone, Copy, PartialEq, Eq, Debug)]
pub enum VariableShift {
    /// To the left.
    Sllv,
    /// To the right, with zeros from the left.
    Srlv,
    /// To the right, with copies of the sign from the left.
    Srav,
}

/// An operation on two registers.
#[derive(Clone, Copy, PartialEq, Eq, Debug)]
pub enum Operation {
    /// The sum, or a trap where it doesn't fit.
    Add,
    /// The sum.
    Addu,
    /// The difference, or a trap where it doesn't fit.
    Sub,
    /// The difference.
    Subu,
    And,
    Or,
    Xor,
    Nor,
    /// 1 where rs is less, both signed, else 0.
    Slt,
    /// 1 where rs is less, both unsigned, else 0.
    Sltu,
}

/// An operation on two registers whose result goes to HI and LO.
#[derive(Clone, Copy, PartialEq, Eq, Debug)]
pub enum HiLoOperation {
    /// The product of signed numbers: HI has the upper word.
    Mult,
    /// The product of unsigned numbers: HI has the upper word.
    Multu,
    /// Signed numbers divided: HI has the remainder, LO the quotient, rounded towards zero.
    Div,
    /// Unsigned numbers divided: HI has the remainder, LO the quotient.
    Divu,
}

/// Which of HI and LO is read.
#[derive(Clone, Copy, PartialEq, Eq, Debug)]
pub enum MoveFrom {
    Mfhi,
    Mflo,
}

/// Which of HI and LO is set.
#[derive(Clone, Copy, PartialEq, Eq, Debug)]
pub enum MoveTo {
    Mthi,
    Mtlo,
}

/// What a branch tests of rs and rt.
#[derive(Clone, Copy, PartialEq, Eq, Debug)]
pub enum Branch {
    /// They are equal.
    Beq,
    /// They differ.
    Bne,
}

/// What a branch tests of rs, a signed number.
#[derive(Clone, Copy, PartialEq, Eq, Debug)]
pub enum ZeroBranch {
    /// It is less than zero.
    Bltz,
    /// It isn't less than zero.
    Bgez,
    /// It isn't greater than zero.
    Blez,
    /// It is greater than zero.
    Bgtz,
}

/// An operation on a register and a number in the instruction: signed in the first four.
#[derive(Clone, Copy, PartialEq, Eq, Debug)]
pub enum Immediate {
    /// The sum, or a trap where it doesn't fit.
    Addi,
    /// The sum.
    Addiu,
    /// 1 where the register is less, both signed, else 0.
    Slti,
    /// 1 where the register is less, both unsigned, else 0.
    Sltiu,
    Andi,
    Ori,
    Xori,
}

/// What a load reads.
#[derive(Clone, Copy, PartialEq, Eq, Debug)]
pub enum Load {
    /// A signed byte.
    Lb,
    /// A signed half.
    Lh,
    /// A word.
    Lw,
    /// An unsigned byte.
    Lbu,
    /// An unsigned half.
    Lhu,
}

/// What a store writes.
#[derive(Clone, Copy, PartialEq, Eq, Debug)]
pub enum Store {
    /// The lowest byte.
    Sb,
    /// The lower half.
    Sh,
    /// The word.
    Sw,
}

/// An instruction.
#[derive(Clone, Copy, PartialEq, Eq, Debug)]
pub enum Instr {
    /// rd becomes rt shifted so far.
    OnShift {
        shift: Shift,
        rd: Register,
        rt: Register,
        amount: Amount,
    },
    /// rd becomes rt shifted by rs.
    OnVariableShift {
        shift: VariableShift,
        rd: Register,
        rt: Register,
        rs: Register,
    },
    /// rd becomes the operation on rs and rt.
    OnRegisters {
        operation: Operation,
        rd: Register,
        rs: Register,
        rt: Register,
    },
    /// HI and LO become the operation on rs and rt.
    OnHiLo {
        operation: HiLoOperation,
        rs: Register,
        rt: Register,
    },
    /// rd becomes HI or LO.
    ReadHiLo {
        from: MoveFrom,
        rd: Register,
    },
    /// HI or LO becomes rs.
    WriteHiLo {
        to: MoveTo,
        rs: Register,
    },
    /// Jumps to rs.
    Jr {
        rs: Register,
    },
    /// Jumps to rs; rd becomes the place behind the jump's slot.
    Jalr {
        link: Link,
    },
    /// A stop.
    Syscall,
    /// Jumps.
    J {
        target: Target,
    },
    /// Jumps; register 31 becomes the place behind the jump's slot.
    Jal {
        target: Target,
    },
    /// Jumps so many words from the branch's slot where the test holds.
    BranchIf {
        branch: Branch,
        rs: Register,
        rt: Register,
        offset: Sixteen,
    },
    /// The same, where the test against zero holds.
    BranchOnZero {
        branch: ZeroBranch,
        rs: Register,
        offset: Sixteen,
    },
    /// rt becomes the operation on rs and the number.
    OnImmediate {
        operation: Immediate,
        rt: Register,
        rs: Register,
        number: Sixteen,
    },
    /// rt becomes the number, followed by sixteen zeros.
    Lui {
        rt: Register,
        number: Sixteen,
    },
    /// rt becomes what is read at rs plus the offset.
    LoadFrom {
        load: Load,
        rt: Register,
        rs: Register,
        offset: Sixteen,
    },
    /// What is at rs plus the offset becomes rt.
    StoreTo {
        store: Store,
        rt: Register,
        rs: Register,
        offset: Sixteen,
    },
}
