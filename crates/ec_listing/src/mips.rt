//! Instructions of MIPS I in GNU syntax, as `objdump -m mips:3000 -M no-aliases,reg-names=numeric` prints them.
use mips_isa::field::{Link, Register, Sixteen, Target};
use mips_isa::instr::{
    Branch, HiLoOperation, Immediate, Instr, Load, MoveFrom, MoveTo, Operation, Shift, Store,
    VariableShift, ZeroBranch,
};
use std::fmt;

/// An instruction at its address: jumps and branches are printed with the address that they lead to.
#[derive(Clone, Copy, PartialEq, Eq, Debug)]
pub struct MipsAt {
    pub address: u32,
    pub instr: Instr,
}

impl fmt::Display for MipsAt {
    fn fmt<W: fmt::Write>(&self, f: &mut fmt::Formatter<W>) -> fmt::Result {
        write!(f, "{}", name_of(self.instr))?;
        self.put_operands(f)
    }
}

impl MipsAt {
    /// Writes what stands behind the name, with a tab before it.
    fn put_operands<W: fmt::Write>(&self, f: &mut fmt::Formatter<W>) -> fmt::Result {
        match self.instr {
            Instr::OnShift { rd, rt, amount, .. } => {
                write!(f, "\t${},${},0x{:x}", rd.number, rt.number, amount.bits)
            }
            Instr::OnVariableShift { rd, rt, rs, .. } => put_three(rd, rt, rs, f),
            Instr::OnRegisters { rd, rs, rt, .. } => put_three(rd, rs, rt, f),
            Instr::OnHiLo { operation, rs, rt } => put_hi_lo(operation, rs, rt, f),
            Instr::ReadHiLo { rd, .. } => write!(f, "\t${}", rd.number),
            Instr::WriteHiLo { rs, .. } | Instr::Jr { rs } => write!(f, "\t${}", rs.number),
            Instr::Jalr { link } => put_link(link, f),
            Instr::Syscall => Ok(()),
            Instr::J { target } | Instr::Jal { target } => {
                write!(f, "\t0x{:x}", jump_target(self.address, target))
            }
            Instr::BranchIf { rs, rt, offset, .. } => {
                let to = branch_target(self.address, offset);
                write!(f, "\t${},${},0x{to:x}", rs.number, rt.number)
            }
            Instr::BranchOnZero { rs, offset, .. } => {
                let to = branch_target(self.address, offset);
                write!(f, "\t${},0x{to:x}", rs.number)
            }
            Instr::OnImmediate {
                operation,
                rt,
                rs,
                number,
            } => put_number(operation, rt, rs, number, f),
            Instr::Lui { rt, number } => write!(f, "\t${},0x{:x}", rt.number, number.bits),
            Instr::LoadFrom { rt, rs, offset, .. } | Instr::StoreTo { rt, rs, offset, .. } => {
                write!(f, "\t${},{}(${})", rt.number, signed(offset), rs.number)
            }
        }
    }
}

fn put_three<W: fmt::Write>(
    one: Register,
    two: Register,
    three: Register,
    f: &mut fmt::Formatter<W>,
) -> fmt::Result {
    write!(f, "\t${},${},${}", one.number, two.number, three.number)
}

/// A division of the machine's own is written with register 0 as its result.
fn put_hi_lo<W: fmt::Write>(
    operation: HiLoOperation,
    rs: Register,
    rt: Register,
    f: &mut fmt::Formatter<W>,
) -> fmt::Result {
    match operation {
        HiLoOperation::Mult | HiLoOperation::Multu => {
            write!(f, "\t${},${}", rs.number, rt.number)
        }
        HiLoOperation::Div | HiLoOperation::Divu => {
            write!(f, "\t$0,${},${}", rs.number, rt.number)
        }
    }
}

/// The register of a link is written unless it is 31.
fn put_link<W: fmt::Write>(link: Link, f: &mut fmt::Formatter<W>) -> fmt::Result {
    if link.rd.number == 31 {
        write!(f, "\t${}", link.rs.number)
    } else {
        write!(f, "\t${},${}", link.rd.number, link.rs.number)
    }
}

fn put_number<W: fmt::Write>(
    operation: Immediate,
    rt: Register,
    rs: Register,
    number: Sixteen,
    f: &mut fmt::Formatter<W>,
) -> fmt::Result {
    write!(f, "\t${},${},", rt.number, rs.number)?;
    if is_signed(operation) {
        write!(f, "{}", signed(number))
    } else {
        write!(f, "0x{:x}", number.bits)
    }
}

/// Sixteen bits as a signed number.
fn signed(number: Sixteen) -> i64 {
    let bits = i64::from(number.bits);
    if bits < 0x8000 { bits } else { bits - 0x1_0000 }
}

/// Where a branch leads, so many words from behind it. Addresses are counted round.
fn branch_target(address: u32, offset: Sixteen) -> u32 {
    let to = address
        .wrapping_add(4)
        .wrapping_add(offset.bits.wrapping_mul(4));
    if offset.bits < 0x8000 {
        to
    } else {
        to.wrapping_sub(0x4_0000)
    }
}

/// Where a jump leads: the upper four bits are those of the place behind it.
fn jump_target(address: u32, target: Target) -> u32 {
    (address.wrapping_add(4) & 0xF000_0000) | target.words.wrapping_mul(4)
}

/// The name of an instruction.
fn name_of(instr: Instr) -> &'static str {
    match instr {
        Instr::OnShift { shift, .. } => shift_name(shift),
        Instr::OnVariableShift { shift, .. } => variable_shift_name(shift),
        Instr::OnRegisters { operation, .. } => operation_name(operation),
        Instr::OnHiLo { operation, .. } => hi_lo_name(operation),
        Instr::ReadHiLo { from, .. } => move_from_name(from),
        Instr::WriteHiLo { to, .. } => move_to_name(to),
        Instr::Jr { .. } => "jr",
        Instr::Jalr { .. } => "jalr",
        Instr::Syscall => "syscall",
        Instr::J { .. } => "j",
        Instr::Jal { .. } => "jal",
        Instr::BranchIf { branch, .. } => branch_name(branch),
        Instr::BranchOnZero { branch, .. } => zero_branch_name(branch),
        Instr::OnImmediate { operation, .. } => immediate_name(operation),
        Instr::Lui { .. } => "lui",
        Instr::LoadFrom { load, .. } => load_name(load),
        Instr::StoreTo { store, .. } => store_name(store),
    }
}

fn shift_name(shift: Shift) -> &'static str {
    match shift {
        Shift::Sll => "sll",
        Shift::Srl => "srl",
        Shift::Sra => "sra",
    }
}

fn variable_shift_name(shift: VariableShift) -> &'static str {
    match shift {
        VariableShift::Sllv => "sllv",
        VariableShift::Srlv => "srlv",
        VariableShift::Srav => "srav",
    }
}

fn operation_name(operation: Operation) -> &'static str {
    match operation {
        Operation::Add => "add",
        Operation::Addu => "addu",
        Operation::Sub => "sub",
        Operation::Subu => "subu",
        Operation::And => "and",
        Operation::Or => "or",
        Operation::Xor => "xor",
        Operation::Nor => "nor",
        Operation::Slt => "slt",
        Operation::Sltu => "sltu",
    }
}

fn hi_lo_name(operation: HiLoOperation) -> &'static str {
    match operation {
        HiLoOperation::Mult => "mult",
        HiLoOperation::Multu => "multu",
        HiLoOperation::Div => "div",
        HiLoOperation::Divu => "divu",
    }
}

fn move_from_name(from: MoveFrom) -> &'static str {
    match from {
        MoveFrom::Mfhi => "mfhi",
        MoveFrom::Mflo => "mflo",
    }
}

fn move_to_name(to: MoveTo) -> &'static str {
    match to {
        MoveTo::Mthi => "mthi",
        MoveTo::Mtlo => "mtlo",
    }
}

fn branch_name(branch: Branch) -> &'static str {
    match branch {
        Branch::Beq => "beq",
        Branch::Bne => "bne",
    }
}

fn zero_branch_name(branch: ZeroBranch) -> &'static str {
    match branch {
        ZeroBranch::Bltz => "bltz",
        ZeroBranch::Bgez => "bgez",
        ZeroBranch::Blez => "blez",
        ZeroBranch::Bgtz => "bgtz",
    }
}

fn immediate_name(operation: Immediate) -> &'static str {
    match operation {
        Immediate::Addi => "addi",
        Immediate::Addiu => "addiu",
        Immediate::Slti => "slti",
        Immediate::Sltiu => "sltiu",
        Immediate::Andi => "andi",
        Immediate::Ori => "ori",
        Immediate::Xori => "xori",
    }
}

/// Whether the number of such an instruction is written as a signed one.
fn is_signed(operation: Immediate) -> bool {
    match operation {
        Immediate::Addi | Immediate::Addiu | Immediate::Slti | Immediate::Sltiu => true,
        Immediate::Andi | Immediate::Ori | Immediate::Xori => false,
    }
}

fn load_name(load: Load) -> &'static str {
    match load {
        Load::Lb => "lb",
        Load::Lh => "lh",
        Load::Lw => "lw",
        Load::Lbu => "lbu",
        Load::Lhu => "lhu",
    }
}

fn store_name(store: Store) -> &'static str {
    match store {
        Store::Sb => "sb",
        Store::Sh => "sh",
        Store::Sw => "sw",
    }
}

#[cfg(test)]
mod tests;
