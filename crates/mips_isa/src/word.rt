//! The word of an instruction, and the instruction of a word.

ghost use Rattle.std.specs.Prelude.{◌≡◌, ◌≢◌, ◌↔◌, ◌/◌, ◌%◌, ◌<◌, ◌^◌, Some, IfSome, IfNone};
ghost use Rattle.mips_isa.specs.Words.{word_of, bits, r_word, i_word, j_word};
ghost use Rattle.mips_isa.specs.declared.field.Amount.{Amount};
ghost use Rattle.mips_isa.specs.declared.field.Link.{Link};
ghost use Rattle.mips_isa.specs.declared.field.Register.{Register};
ghost use Rattle.mips_isa.specs.declared.field.Sixteen.{Sixteen};
ghost use Rattle.mips_isa.specs.declared.field.Target.{Target};
ghost use Rattle.mips_isa.specs.declared.instr.Instr.{Instr};
ghost use Rattle.mips_isa.specs.declared.instr.Instr.TheVariants.{OnShift, OnVariableShift, OnRegisters, OnHiLo, ReadHiLo};
ghost use Rattle.mips_isa.specs.declared.instr.Instr.TheVariants.{WriteHiLo, Jr, Jalr, Syscall, J, Jal, BranchIf, BranchOnZero};
ghost use Rattle.mips_isa.specs.declared.instr.Instr.TheVariants.{OnImmediate, Lui, LoadFrom, StoreTo};
ghost use Rattle.mips_isa.specs.declared.instr.Shift.{Shift};
ghost use Rattle.mips_isa.specs.declared.instr.VariableShift.{VariableShift};
ghost use Rattle.mips_isa.specs.declared.instr.Operation.{Operation};
ghost use Rattle.mips_isa.specs.declared.instr.HiLoOperation.{HiLoOperation};
ghost use Rattle.mips_isa.specs.declared.instr.MoveFrom.{MoveFrom};
ghost use Rattle.mips_isa.specs.declared.instr.MoveTo.{MoveTo};
ghost use Rattle.mips_isa.specs.declared.instr.Branch.{Branch};
ghost use Rattle.mips_isa.specs.declared.instr.ZeroBranch.{ZeroBranch};
ghost use Rattle.mips_isa.specs.declared.instr.Immediate.{Immediate};
ghost use Rattle.mips_isa.specs.declared.instr.Load.{Load};
ghost use Rattle.mips_isa.specs.declared.instr.Store.{Store};

use crate::field::{Amount, Link, Register, Sixteen, Target, field};
use crate::instr::{
    Branch, HiLoOperation, Immediate, Instr, Load, MoveFrom, MoveTo, Operation, Shift, Store,
    VariableShift, ZeroBranch,
};

const JR_FUNCT: u32 = 0x08;

const JALR_FUNCT: u32 = 0x09;

const J_OP: u32 = 0x02;

const JAL_OP: u32 = 0x03;

const LUI_OP: u32 = 0x0F;

const SYSCALL: u32 = 0x0000_000C;

/// The word of an instruction.
pub fn encode(instr: Instr) -> u32
    ensures { result ≡ word_of instr }
{
    match instr {
        Instr::OnShift {
            shift,
            rd,
            rt,
            amount,
        } => r_format(0, rt.number, rd.number, amount.bits, shift.funct()),
        Instr::OnVariableShift { shift, rd, rt, rs } => r_format(
            rs.number,
            rt.number,
            rd.number,
            0,
            shift.funct(),
        ),
        Instr::OnRegisters {
            operation,
            rd,
            rs,
            rt,
        } => r_format(rs.number, rt.number, rd.number, 0, operation.funct()),
        Instr::OnHiLo { operation, rs, rt } => r_format(
            rs.number,
            rt.number,
            0,
            0,
            operation.funct(),
        ),
        Instr::ReadHiLo { from, rd } => r_format(0, 0, rd.number, 0, from.funct()),
        Instr::WriteHiLo { to, rs } => r_format(rs.number, 0, 0, 0, to.funct()),
        Instr::Jr { rs } => r_format(rs.number, 0, 0, 0, JR_FUNCT),
        Instr::Jalr { link } => r_format(link.rs.number, 0, link.rd.number, 0, JALR_FUNCT),
        Instr::Syscall => SYSCALL,
        Instr::J { target } => j_format(J_OP, target),
        Instr::Jal { target } => j_format(JAL_OP, target),
        Instr::BranchIf {
            branch,
            rs,
            rt,
            offset,
        } => i_format(branch.op(), rs.number, rt.number, offset),
        Instr::BranchOnZero { branch, rs, offset } => {
            let (op, rt) = branch.op_rt();
            i_format(op, rs.number, rt, offset)
        }
        Instr::OnImmediate {
            operation,
            rt,
            rs,
            number,
        } => i_format(operation.op(), rs.number, rt.number, number),
        Instr::Lui { rt, number } => i_format(LUI_OP, 0, rt.number, number),
        Instr::LoadFrom {
            load,
            rt,
            rs,
            offset,
        } => i_format(load.op(), rs.number, rt.number, offset),
        Instr::StoreTo {
            store,
            rt,
            rs,
            offset,
        } => i_format(store.op(), rs.number, rt.number, offset),
    }
}

/// The instruction whose word this is, or None where the word is that of no instruction.
pub fn decode(word: u32) -> Option<Instr>
    ensures { (i : Instr) → (result ≡ Some i) ↔ (word_of i ≡ word) }
{
    row_of(word)
}

// ---- formats

fn r_format(rs: u32, rt: u32, rd: u32, shamt: u32, funct: u32) -> u32
    requires rs { rs < 2 ^ 5 }
    requires rt { rt < 2 ^ 5 }
    requires rd { rd < 2 ^ 5 }
    requires shamt { shamt < 2 ^ 5 }
    requires funct { funct < 2 ^ 6 }
    ensures { result ≡ r_word rs rt rd shamt funct }
{
    (rs << 21) + (rt << 16) + (rd << 11) + (shamt << 6) + funct
}

fn i_format(op: u32, rs: u32, rt: u32, number: Sixteen) -> u32
    requires op { op < 2 ^ 6 }
    requires rs { rs < 2 ^ 5 }
    requires rt { rt < 2 ^ 5 }
    ensures { result ≡ i_word op rs rt number.bits }
{
    (op << 26) + (rs << 21) + (rt << 16) + number.bits
}

fn j_format(op: u32, target: Target) -> u32
    requires { op < 2 ^ 6 }
    ensures { result ≡ j_word op target.words }
{
    (op << 26) + target.words
}

// ---- the row of a word

fn row_of(word: u32) -> Option<Instr>
    ensures some { IfSome result (λ i. word_of i ≡ word) }
    ensures none { IfNone result ((i : Instr) → word_of i ≢ word) }
{
    if field(word, 26, 6) == 0 {
        special_row(word)
    } else {
        other_row(word)
    }
}

fn special_row(word: u32) -> Option<Instr>
    requires { word / 2 ^ 26 ≡ 0 }
    ensures some { IfSome result (λ i. word_of i ≡ word) }
    ensures none { IfNone result ((i : Instr) → word_of i ≢ word) }
{
    if let Some(instr) = operation_row(word) {
        return Some(instr);
    }
    if let Some(instr) = shift_row(word) {
        return Some(instr);
    }
    if let Some(instr) = variable_shift_row(word) {
        return Some(instr);
    }
    if let Some(instr) = hilo_row(word) {
        return Some(instr);
    }
    if let Some(instr) = from_row(word) {
        return Some(instr);
    }
    if let Some(instr) = to_row(word) {
        return Some(instr);
    }
    if let Some(instr) = jr_row(word) {
        return Some(instr);
    }
    if let Some(instr) = jalr_row(word) {
        return Some(instr);
    }
    syscall_row(word)
}

fn other_row(word: u32) -> Option<Instr>
    requires { word / 2 ^ 26 ≢ 0 }
    ensures some { IfSome result (λ i. word_of i ≡ word) }
    ensures none { IfNone result ((i : Instr) → word_of i ≢ word) }
{
    if let Some(instr) = immediate_row(word) {
        return Some(instr);
    }
    if let Some(instr) = load_row(word) {
        return Some(instr);
    }
    if let Some(instr) = store_row(word) {
        return Some(instr);
    }
    if let Some(instr) = branch_row(word) {
        return Some(instr);
    }
    if let Some(instr) = zero_branch_row(word) {
        return Some(instr);
    }
    if let Some(instr) = lui_row(word) {
        return Some(instr);
    }
    if let Some(instr) = j_row(word) {
        return Some(instr);
    }
    jal_row(word)
}

// ---- the rows of op 0, each by its funct

fn operation_row(word: u32) -> Option<Instr>
    ensures some { IfSome result (λ i. word_of i ≡ word) }
    ensures none { IfNone result ((operation : Operation) (rd rs rt : Register) → word_of (OnRegisters operation rd rs rt) ≢ word) }
{
    let operation = Operation::of_funct(funct_of(word)?)?;
    if amount_of(word).bits != 0 {
        return None;
    }
    Some(Instr::OnRegisters {
        operation,
        rd: rd_of(word),
        rs: rs_of(word),
        rt: rt_of(word),
    })
}

fn shift_row(word: u32) -> Option<Instr>
    ensures some { IfSome result (λ i. word_of i ≡ word) }
    ensures none { IfNone result ((shift : Shift) (rd rt : Register) (amount : Amount) → word_of (OnShift shift rd rt amount) ≢ word) }
{
    let shift = Shift::of_funct(funct_of(word)?)?;
    if rs_of(word).number != 0 {
        return None;
    }
    Some(Instr::OnShift {
        shift,
        rd: rd_of(word),
        rt: rt_of(word),
        amount: amount_of(word),
    })
}

fn variable_shift_row(word: u32) -> Option<Instr>
    ensures some { IfSome result (λ i. word_of i ≡ word) }
    ensures none { IfNone result ((shift : VariableShift) (rd rt rs : Register) → word_of (OnVariableShift shift rd rt rs) ≢ word) }
{
    let shift = VariableShift::of_funct(funct_of(word)?)?;
    if amount_of(word).bits != 0 {
        return None;
    }
    Some(Instr::OnVariableShift {
        shift,
        rd: rd_of(word),
        rt: rt_of(word),
        rs: rs_of(word),
    })
}

fn hilo_row(word: u32) -> Option<Instr>
    ensures some { IfSome result (λ i. word_of i ≡ word) }
    ensures none { IfNone result ((operation : HiLoOperation) (rs rt : Register) → word_of (OnHiLo operation rs rt) ≢ word) }
{
    let operation = HiLoOperation::of_funct(funct_of(word)?)?;
    if rd_of(word).number != 0 || amount_of(word).bits != 0 {
        return None;
    }
    Some(Instr::OnHiLo {
        operation,
        rs: rs_of(word),
        rt: rt_of(word),
    })
}

fn from_row(word: u32) -> Option<Instr>
    ensures some { IfSome result (λ i. word_of i ≡ word) }
    ensures none { IfNone result ((from : MoveFrom) (rd : Register) → word_of (ReadHiLo from rd) ≢ word) }
{
    let from = MoveFrom::of_funct(funct_of(word)?)?;
    if rs_of(word).number != 0 || rt_of(word).number != 0 || amount_of(word).bits != 0 {
        return None;
    }
    Some(Instr::ReadHiLo {
        from,
        rd: rd_of(word),
    })
}

fn to_row(word: u32) -> Option<Instr>
    ensures some { IfSome result (λ i. word_of i ≡ word) }
    ensures none { IfNone result ((to : MoveTo) (rs : Register) → word_of (WriteHiLo to rs) ≢ word) }
{
    let to = MoveTo::of_funct(funct_of(word)?)?;
    if rt_of(word).number != 0 || rd_of(word).number != 0 || amount_of(word).bits != 0 {
        return None;
    }
    Some(Instr::WriteHiLo {
        to,
        rs: rs_of(word),
    })
}

fn jr_row(word: u32) -> Option<Instr>
    ensures some { IfSome result (λ i. word_of i ≡ word) }
    ensures none { IfNone result ((rs : Register) → word_of (Jr rs) ≢ word) }
{
    if funct_of(word)? != JR_FUNCT {
        return None;
    }
    if rt_of(word).number != 0 || rd_of(word).number != 0 || amount_of(word).bits != 0 {
        return None;
    }
    Some(Instr::Jr { rs: rs_of(word) })
}

fn jalr_row(word: u32) -> Option<Instr>
    ensures some { IfSome result (λ i. word_of i ≡ word) }
    ensures none { IfNone result ((link : Link) → word_of (Jalr link) ≢ word) }
{
    if funct_of(word)? != JALR_FUNCT {
        return None;
    }
    if rt_of(word).number != 0 || amount_of(word).bits != 0 {
        return None;
    }
    let (rd, rs) = (rd_of(word), rs_of(word));
    if rd.number == rs.number {
        return None;
    }
    Some(Instr::Jalr {
        link: Link { rd, rs },
    })
}

fn syscall_row(word: u32) -> Option<Instr>
    ensures some { IfSome result (λ i. word_of i ≡ word) }
    ensures none { IfNone result (word_of Syscall ≢ word) }
{
    if word == SYSCALL {
        Some(Instr::Syscall)
    } else {
        None
    }
}

// ---- the rows of other ops

fn immediate_row(word: u32) -> Option<Instr>
    ensures some { IfSome result (λ i. word_of i ≡ word) }
    ensures none { IfNone result
        ((operation : Immediate) (rt rs : Register) (number : Sixteen) → word_of (OnImmediate operation rt rs number) ≢ word) }
{
    let operation = Immediate::of_op(field(word, 26, 6))?;
    Some(Instr::OnImmediate {
        operation,
        rt: rt_of(word),
        rs: rs_of(word),
        number: number_of(word),
    })
}

fn load_row(word: u32) -> Option<Instr>
    ensures some { IfSome result (λ i. word_of i ≡ word) }
    ensures none { IfNone result ((load : Load) (rt rs : Register) (offset : Sixteen) → word_of (LoadFrom load rt rs offset) ≢ word) }
{
    let load = Load::of_op(field(word, 26, 6))?;
    Some(Instr::LoadFrom {
        load,
        rt: rt_of(word),
        rs: rs_of(word),
        offset: number_of(word),
    })
}

fn store_row(word: u32) -> Option<Instr>
    ensures some { IfSome result (λ i. word_of i ≡ word) }
    ensures none { IfNone result ((store : Store) (rt rs : Register) (offset : Sixteen) → word_of (StoreTo store rt rs offset) ≢ word) }
{
    let store = Store::of_op(field(word, 26, 6))?;
    Some(Instr::StoreTo {
        store,
        rt: rt_of(word),
        rs: rs_of(word),
        offset: number_of(word),
    })
}

fn branch_row(word: u32) -> Option<Instr>
    ensures some { IfSome result (λ i. word_of i ≡ word) }
    ensures none { IfNone result ((branch : Branch) (rs rt : Register) (offset : Sixteen) → word_of (BranchIf branch rs rt offset) ≢ word) }
{
    let branch = Branch::of_op(field(word, 26, 6))?;
    Some(Instr::BranchIf {
        branch,
        rs: rs_of(word),
        rt: rt_of(word),
        offset: number_of(word),
    })
}

fn zero_branch_row(word: u32) -> Option<Instr>
    ensures some { IfSome result (λ i. word_of i ≡ word) }
    ensures none { IfNone result
        ((branch : ZeroBranch) (rs : Register) (offset : Sixteen) → word_of (BranchOnZero branch rs offset) ≢ word) }
{
    let branch = ZeroBranch::of_op_rt((field(word, 26, 6), rt_of(word).number))?;
    Some(Instr::BranchOnZero {
        branch,
        rs: rs_of(word),
        offset: number_of(word),
    })
}

fn lui_row(word: u32) -> Option<Instr>
    ensures some { IfSome result (λ i. word_of i ≡ word) }
    ensures none { IfNone result ((rt : Register) (number : Sixteen) → word_of (Lui rt number) ≢ word) }
{
    if field(word, 26, 6) != LUI_OP {
        return None;
    }
    if rs_of(word).number != 0 {
        return None;
    }
    Some(Instr::Lui {
        rt: rt_of(word),
        number: number_of(word),
    })
}

fn j_row(word: u32) -> Option<Instr>
    ensures some { IfSome result (λ i. word_of i ≡ word) }
    ensures none { IfNone result ((target : Target) → word_of (J target) ≢ word) }
{
    if field(word, 26, 6) != J_OP {
        return None;
    }
    Some(Instr::J {
        target: target_of(word),
    })
}

fn jal_row(word: u32) -> Option<Instr>
    ensures some { IfSome result (λ i. word_of i ≡ word) }
    ensures none { IfNone result ((target : Target) → word_of (Jal target) ≢ word) }
{
    if field(word, 26, 6) != JAL_OP {
        return None;
    }
    Some(Instr::Jal {
        target: target_of(word),
    })
}

// The funct of a word whose op is 0.
fn funct_of(word: u32) -> Option<u32>
    ensures some { IfSome result (λ funct. (word / 2 ^ 26 ≡ 0) × (funct ≡ bits 5 0 word)) }
    ensures none { IfNone result (word / 2 ^ 26 ≢ 0) }
{
    if field(word, 26, 6) == 0 {
        Some(field(word, 0, 6))
    } else {
        None
    }
}

// ---- the fields of a word

fn rs_of(word: u32) -> Register
    ensures { result.number ≡ bits 25 21 word }
{
    Register {
        number: field(word, 21, 5),
    }
}

fn rt_of(word: u32) -> Register
    ensures { result.number ≡ bits 20 16 word }
{
    Register {
        number: field(word, 16, 5),
    }
}

fn rd_of(word: u32) -> Register
    ensures { result.number ≡ bits 15 11 word }
{
    Register {
        number: field(word, 11, 5),
    }
}

fn amount_of(word: u32) -> Amount
    ensures { result.bits ≡ bits 10 6 word }
{
    Amount {
        bits: field(word, 6, 5),
    }
}

fn number_of(word: u32) -> Sixteen
    ensures { result.bits ≡ bits 15 0 word }
{
    Sixteen {
        bits: field(word, 0, 16),
    }
}

fn target_of(word: u32) -> Target
    ensures { result.words ≡ bits 25 0 word }
{
    Target {
        words: field(word, 0, 26),
    }
}

#[cfg(test)]
mod tests;
