//! Instructions of RV32IM in GNU syntax, as `objdump -M no-aliases,numeric` prints them.
use rv_isa::field::{BranchOffset, JumpOffset, Register, Twelve};
use rv_isa::instr::{Branch, Immediate, Instr, Load, Operation, Shift, Store};
use std::fmt;

/// An instruction at its address: jumps and branches are printed with the address that they lead to.
#[derive(Clone, Copy, PartialEq, Eq, Debug)]
pub struct RiscvAt {
    pub address: u32,
    pub instr: Instr,
}

impl fmt::Display for RiscvAt {
    fn fmt<W: fmt::Write>(&self, f: &mut fmt::Formatter<W>) -> fmt::Result {
        write!(f, "{}", name_of(self.instr))?;
        self.put_operands(f)
    }
}

impl RiscvAt {
    /// Writes what stands behind the name, with a tab before it.
    fn put_operands<W: fmt::Write>(&self, f: &mut fmt::Formatter<W>) -> fmt::Result {
        match self.instr {
            Instr::Lui { rd, high } | Instr::Auipc { rd, high } => {
                write!(f, "\tx{},0x{:x}", rd.number, high.bits)
            }
            Instr::Jal { rd, offset } => {
                let to = jump_target(self.address, offset);
                write!(f, "\tx{},0x{to:x}", rd.number)
            }
            Instr::Jalr { rd, rs1, offset } => put_at(rd, offset, rs1, f),
            Instr::BranchIf {
                rs1,
                rs2,
                offset,
                ..
            } => {
                let to = branch_target(self.address, offset);
                write!(f, "\tx{},x{},0x{to:x}", rs1.number, rs2.number)
            }
            Instr::LoadFrom {
                rd,
                rs1,
                offset,
                ..
            } => put_at(rd, offset, rs1, f),
            Instr::StoreTo {
                rs1,
                rs2,
                offset,
                ..
            } => put_at(rs2, offset, rs1, f),
            Instr::OnImmediate {
                rd,
                rs1,
                number,
                ..
            } => write!(f, "\tx{},x{},{}", rd.number, rs1.number, signed(number)),
            Instr::OnShift {
                rd,
                rs1,
                amount,
                ..
            } => write!(f, "\tx{},x{},0x{:x}", rd.number, rs1.number, amount.bits),
            Instr::OnRegisters { rd, rs1, rs2, .. } => {
                write!(f, "\tx{},x{},x{}", rd.number, rs1.number, rs2.number)
            }
            Instr::Ecall => Ok(()),
        }
    }
}

/// A register, and a place so far from what another one has.
fn put_at<W: fmt::Write>(
    register: Register,
    offset: Twelve,
    from: Register,
    f: &mut fmt::Formatter<W>,
) -> fmt::Result {
    let by = signed(offset);
    write!(f, "\tx{},{by}(x{})", register.number, from.number)
}

/// Twelve bits as a signed number.
fn signed(number: Twelve) -> i64 {
    let bits = i64::from(number.bits);
    if bits < 0x800 { bits } else { bits - 0x1000 }
}

/// Where a branch leads. Addresses are counted round.
fn branch_target(address: u32, offset: BranchOffset) -> u32 {
    let to = address.wrapping_add(offset.bits);
    if offset.bits < 0x1000 {
        to
    } else {
        to.wrapping_sub(0x2000)
    }
}

/// Where a jump leads. Addresses are counted round.
fn jump_target(address: u32, offset: JumpOffset) -> u32 {
    let to = address.wrapping_add(offset.bits);
    if offset.bits < 0x10_0000 {
        to
    } else {
        to.wrapping_sub(0x20_0000)
    }
}

/// The name of an instruction.
fn name_of(instr: Instr) -> &'static str {
    match instr {
        Instr::Lui { .. } => "lui",
        Instr::Auipc { .. } => "auipc",
        Instr::Jal { .. } => "jal",
        Instr::Jalr { .. } => "jalr",
        Instr::BranchIf { branch, .. } => branch_name(branch),
        Instr::LoadFrom { load, .. } => load_name(load),
        Instr::StoreTo { store, .. } => store_name(store),
        Instr::OnImmediate { operation, .. } => immediate_name(operation),
        Instr::OnShift { shift, .. } => shift_name(shift),
        Instr::OnRegisters { operation, .. } => operation_name(operation),
        Instr::Ecall => "ecall",
    }
}

fn branch_name(branch: Branch) -> &'static str {
    match branch {
        Branch::Beq => "beq",
        Branch::Bne => "bne",
        Branch::Blt => "blt",
        Branch::Bge => "bge",
        Branch::Bltu => "bltu",
        Branch::Bgeu => "bgeu",
    }
}

fn load_name(load: Load) -> &'static str {
    match load {
        Load::Lb => "lb",
        Load::Lh => "lh",
        Load::Lw => "lw",
        Load::Lbu => "lbu",
        Load::Lhu => "lhu",
    }
}

fn store_name(store: Store) -> &'static str {
    match store {
        Store::Sb => "sb",
        Store::Sh => "sh",
        Store::Sw => "sw",
    }
}

fn immediate_name(operation: Immediate) -> &'static str {
    match operation {
        Immediate::Addi => "addi",
        Immediate::Slti => "slti",
        Immediate::Sltiu => "sltiu",
        Immediate::Xori => "xori",
        Immediate::Ori => "ori",
        Immediate::Andi => "andi",
    }
}

fn shift_name(shift: Shift) -> &'static str {
    match shift {
        Shift::Slli => "slli",
        Shift::Srli => "srli",
        Shift::Srai => "srai",
    }
}

fn operation_name(operation: Operation) -> &'static str {
    match operation {
        Operation::Add => "add",
        Operation::Sub => "sub",
        Operation::Sll => "sll",
        Operation::Slt => "slt",
        Operation::Sltu => "sltu",
        Operation::Xor => "xor",
        Operation::Srl => "srl",
        Operation::Sra => "sra",
        Operation::Or => "or",
        Operation::And => "and",
        Operation::Mul => "mul",
        Operation::Mulh => "mulh",
        Operation::Mulhsu => "mulhsu",
        Operation::Mulhu => "mulhu",
        Operation::Div => "div",
        Operation::Divu => "divu",
        Operation::Rem => "rem",
        Operation::Remu => "remu",
    }
}

#[cfg(test)]
mod tests;
