//! The word of an instruction, and the instruction of a word.

ghost use Rattle.std.specs.Prelude.{◌≡◌, ◌≢◌, ◌↔◌, ◌+◌, ◌*◌, ◌/◌, ◌%◌, ◌<◌, ◌^◌, Some, IfSome, IfNone};
ghost use Rattle.rv_isa.specs.Words.{word_of, bits, r_word, i_word, s_word, b_word, u_word, j_word};
ghost use Rattle.rv_isa.specs.declared.instr.Instr.{Instr};

use crate::field::{Amount, BranchOffset, JumpOffset, Register, Twelve, Twenty, field};
use crate::instr::{Branch, Immediate, Instr, Load, Operation, Shift, Store};

const LUI: u32 = 0x37;

const AUIPC: u32 = 0x17;

const JAL: u32 = 0x6F;

const JALR: u32 = 0x67;

const BRANCH: u32 = 0x63;

const LOAD: u32 = 0x03;

const STORE: u32 = 0x23;

const IMMEDIATE: u32 = 0x13;

const REGISTERS: u32 = 0x33;

const ECALL: u32 = 0x0000_0073;

/// The word of an instruction.
pub fn encode(instr: Instr) -> u32
    ensures { result ≡ word_of instr }
{
    match instr {
        Instr::Lui { rd, high } => u_format(LUI, rd, high.bits),
        Instr::Auipc { rd, high } => u_format(AUIPC, rd, high.bits),
        Instr::Jal { rd, offset } => j_format(JAL, rd, offset),
        Instr::Jalr { rd, rs1, offset } => i_format(JALR, rd, 0, rs1, offset),
        Instr::BranchIf {
            branch,
            rs1,
            rs2,
            offset,
        } => { b_format(BRANCH, branch.funct3(), rs1, rs2, offset) }
        Instr::LoadFrom {
            load,
            rd,
            rs1,
            offset,
        } => i_format(LOAD, rd, load.funct3(), rs1, offset),
        Instr::StoreTo {
            store,
            rs1,
            rs2,
            offset,
        } => { s_format(STORE, store.funct3(), rs1, rs2, offset) }
        Instr::OnImmediate {
            operation,
            rd,
            rs1,
            number,
        } => { i_format(IMMEDIATE, rd, operation.funct3(), rs1, number) }
        Instr::OnShift {
            shift,
            rd,
            rs1,
            amount,
        } => {
            let (funct7, funct3) = shift.functs();
            r_format(IMMEDIATE, rd.number, funct3, rs1, amount.bits, funct7)
        }
        Instr::OnRegisters {
            operation,
            rd,
            rs1,
            rs2,
        } => {
            let (funct7, funct3) = operation.functs();
            r_format(REGISTERS, rd.number, funct3, rs1, rs2.number, funct7)
        }
        Instr::Ecall => ECALL,
    }
}

/// The instruction whose word this is, or None where the word is that of no instruction.
pub fn decode(word: u32) -> Option<Instr>
    ensures { (i : Instr) → (result ≡ Some i) ↔ (word_of i ≡ word) }
{
    row_of(word)
}

// ---- formats

fn r_format(opcode: u32, rd: u32, funct3: u32, rs1: Register, rs2: u32, funct7: u32) -> u32
    requires opcode { opcode < 2 ^ 7 }
    requires rd { rd < 2 ^ 5 }
    requires funct3 { funct3 < 2 ^ 3 }
    requires rs2 { rs2 < 2 ^ 5 }
    requires funct7 { funct7 < 2 ^ 7 }
    ensures { result ≡ r_word opcode rd funct3 rs1.number rs2 funct7 }
{
    opcode + (rd << 7) + (funct3 << 12) + (rs1.number << 15) + (rs2 << 20) + (funct7 << 25)
}

fn i_format(opcode: u32, rd: Register, funct3: u32, rs1: Register, number: Twelve) -> u32
    requires opcode { opcode < 2 ^ 7 }
    requires funct3 { funct3 < 2 ^ 3 }
    ensures { result ≡ i_word opcode rd.number funct3 rs1.number number.bits }
{
    opcode + (rd.number << 7) + (funct3 << 12) + (rs1.number << 15) + (number.bits << 20)
}

fn s_format(opcode: u32, funct3: u32, rs1: Register, rs2: Register, number: Twelve) -> u32
    requires opcode { opcode < 2 ^ 7 }
    requires funct3 { funct3 < 2 ^ 3 }
    ensures { result ≡ s_word opcode funct3 rs1.number rs2.number number.bits }
{
    let low = field(number.bits, 0, 5);
    let high = field(number.bits, 5, 7);
    r_format(opcode, low, funct3, rs1, rs2.number, high)
}

fn b_format(opcode: u32, funct3: u32, rs1: Register, rs2: Register, offset: BranchOffset) -> u32
    requires opcode { opcode < 2 ^ 7 }
    requires funct3 { funct3 < 2 ^ 3 }
    ensures { result ≡ b_word opcode funct3 rs1.number rs2.number offset.bits }
{
    let low = field(offset.bits, 11, 1) + (field(offset.bits, 1, 4) << 1);
    let high = field(offset.bits, 5, 6) + (field(offset.bits, 12, 1) << 6);
    r_format(opcode, low, funct3, rs1, rs2.number, high)
}

fn u_format(opcode: u32, rd: Register, high: u32) -> u32
    requires opcode { opcode < 2 ^ 7 }
    requires high { high < 2 ^ 20 }
    ensures { result ≡ u_word opcode rd.number high }
{
    opcode + (rd.number << 7) + (high << 12)
}

fn j_format(opcode: u32, rd: Register, offset: JumpOffset) -> u32
    requires opcode { opcode < 2 ^ 7 }
    ensures { result ≡ j_word opcode rd.number offset.bits }
{
    let high = field(offset.bits, 12, 8)
        + (field(offset.bits, 11, 1) << 8)
        + (field(offset.bits, 1, 10) << 9)
        + (field(offset.bits, 20, 1) << 19);
    u_format(opcode, rd, high)
}

// ---- the row of a word

fn row_of(word: u32) -> Option<Instr>
    ensures some { IfSome result (λ i. word_of i ≡ word) }
    ensures none { IfNone result ((i : Instr) → word_of i ≢ word) }
{
    let rd = rd_of(word);
    match field(word, 0, 7) {
        LUI => {
            let high = upper_part(word);
            Some(Instr::Lui { rd, high })
        }
        AUIPC => {
            let high = upper_part(word);
            Some(Instr::Auipc { rd, high })
        }
        JAL => {
            let offset = jump_offset(word);
            Some(Instr::Jal { rd, offset })
        }
        JALR => jalr_row(word),
        BRANCH => branch_row(word),
        LOAD => load_row(word),
        STORE => store_row(word),
        IMMEDIATE => immediate_row(word),
        REGISTERS => register_row(word),
        _ => {
            if word == ECALL {
                Some(Instr::Ecall)
            } else {
                None
            }
        }
    }
}

fn jalr_row(word: u32) -> Option<Instr>
    requires { word % 2 ^ 7 ≡ 0x67 }
    ensures some { IfSome result (λ i. word_of i ≡ word) }
    ensures none { IfNone result ((i : Instr) → word_of i ≢ word) }
{
    if field(word, 12, 3) != 0 {
        return None;
    }
    let rd = rd_of(word);
    let rs1 = rs1_of(word);
    let offset = number_of(word);
    Some(Instr::Jalr { rd, rs1, offset })
}

fn branch_row(word: u32) -> Option<Instr>
    requires { word % 2 ^ 7 ≡ 0x63 }
    ensures some { IfSome result (λ i. word_of i ≡ word) }
    ensures none { IfNone result ((i : Instr) → word_of i ≢ word) }
{
    let branch = Branch::of_funct3(field(word, 12, 3))?;
    let rs1 = rs1_of(word);
    let rs2 = rs2_of(word);
    let offset = branch_offset(word);
    Some(Instr::BranchIf {
        branch,
        rs1,
        rs2,
        offset,
    })
}

fn load_row(word: u32) -> Option<Instr>
    requires { word % 2 ^ 7 ≡ 0x03 }
    ensures some { IfSome result (λ i. word_of i ≡ word) }
    ensures none { IfNone result ((i : Instr) → word_of i ≢ word) }
{
    let load = Load::of_funct3(field(word, 12, 3))?;
    let rd = rd_of(word);
    let rs1 = rs1_of(word);
    let offset = number_of(word);
    Some(Instr::LoadFrom {
        load,
        rd,
        rs1,
        offset,
    })
}

fn store_row(word: u32) -> Option<Instr>
    requires { word % 2 ^ 7 ≡ 0x23 }
    ensures some { IfSome result (λ i. word_of i ≡ word) }
    ensures none { IfNone result ((i : Instr) → word_of i ≢ word) }
{
    let store = Store::of_funct3(field(word, 12, 3))?;
    let rs1 = rs1_of(word);
    let rs2 = rs2_of(word);
    let offset = Twelve {
        bits: field(word, 7, 5) + (field(word, 25, 7) << 5),
    };
    Some(Instr::StoreTo {
        store,
        rs1,
        rs2,
        offset,
    })
}

fn immediate_row(word: u32) -> Option<Instr>
    requires { word % 2 ^ 7 ≡ 0x13 }
    ensures some { IfSome result (λ i. word_of i ≡ word) }
    ensures none { IfNone result ((i : Instr) → word_of i ≢ word) }
{
    let rd = rd_of(word);
    let rs1 = rs1_of(word);
    let funct3 = field(word, 12, 3);
    if let Some(operation) = Immediate::of_funct3(funct3) {
        let number = number_of(word);
        return Some(Instr::OnImmediate {
            operation,
            rd,
            rs1,
            number,
        });
    }
    let shift = Shift::of_functs((field(word, 25, 7), funct3))?;
    let amount = Amount {
        bits: field(word, 20, 5),
    };
    Some(Instr::OnShift {
        shift,
        rd,
        rs1,
        amount,
    })
}

fn register_row(word: u32) -> Option<Instr>
    requires { word % 2 ^ 7 ≡ 0x33 }
    ensures some { IfSome result (λ i. word_of i ≡ word) }
    ensures none { IfNone result ((i : Instr) → word_of i ≢ word) }
{
    let operation = Operation::of_functs((field(word, 25, 7), field(word, 12, 3)))?;
    let rd = rd_of(word);
    let rs1 = rs1_of(word);
    let rs2 = rs2_of(word);
    Some(Instr::OnRegisters {
        operation,
        rd,
        rs1,
        rs2,
    })
}

// ---- the fields of a word

fn rd_of(word: u32) -> Register
    ensures { result.number ≡ bits 11 7 word }
{
    Register {
        number: field(word, 7, 5),
    }
}

fn rs1_of(word: u32) -> Register
    ensures { result.number ≡ bits 19 15 word }
{
    Register {
        number: field(word, 15, 5),
    }
}

fn rs2_of(word: u32) -> Register
    ensures { result.number ≡ bits 24 20 word }
{
    Register {
        number: field(word, 20, 5),
    }
}

fn number_of(word: u32) -> Twelve
    ensures { result.bits ≡ bits 31 20 word }
{
    Twelve {
        bits: field(word, 20, 12),
    }
}

fn upper_part(word: u32) -> Twenty
    ensures { result.bits ≡ bits 31 12 word }
{
    Twenty {
        bits: field(word, 12, 20),
    }
}

// The offset that stands in the word of a branch.
fn branch_offset(word: u32) -> BranchOffset
    ensures { result.bits ≡ 2 * bits 11 8 word + 2 ^ 5 * bits 30 25 word + 2 ^ 11 * bits 7 7 word + 2 ^ 12 * bits 31 31 word }
{
    BranchOffset {
        bits: (field(word, 8, 4) << 1)
            + (field(word, 25, 6) << 5)
            + (field(word, 7, 1) << 11)
            + (field(word, 31, 1) << 12),
    }
}

// The offset that stands in the word of a jump.
fn jump_offset(word: u32) -> JumpOffset
    ensures { result.bits ≡ 2 * bits 30 21 word + 2 ^ 11 * bits 20 20 word + 2 ^ 12 * bits 19 12 word + 2 ^ 20 * bits 31 31 word }
{
    JumpOffset {
        bits: (field(word, 21, 10) << 1)
            + (field(word, 20, 1) << 11)
            + (field(word, 12, 8) << 12)
            + (field(word, 31, 1) << 20),
    }
}

#[cfg(test)]
mod tests;
