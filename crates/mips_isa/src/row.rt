//! The numbers by which rows differ: funct where op is 0, else op, or op and the number at rt.

ghost use Rattle.std.specs.Prelude.{◌≡◌, ◌≢◌, ◌<◌, ◌^◌, IfSome, IfNone};
ghost use Rattle.mips_isa.specs.Words.{shift_funct, variable_shift_funct, operation_funct, hilo_funct, from_funct, to_funct};
ghost use Rattle.mips_isa.specs.Words.{branch_op, zero_branch_op_rt, immediate_op, load_op, store_op};
ghost use Rattle.mips_isa.specs.declared.instr.Shift.{Shift};
ghost use Rattle.mips_isa.specs.declared.instr.VariableShift.{VariableShift};
ghost use Rattle.mips_isa.specs.declared.instr.Operation.{Operation};
ghost use Rattle.mips_isa.specs.declared.instr.HiLoOperation.{HiLoOperation};
ghost use Rattle.mips_isa.specs.declared.instr.MoveFrom.{MoveFrom};
ghost use Rattle.mips_isa.specs.declared.instr.MoveTo.{MoveTo};
ghost use Rattle.mips_isa.specs.declared.instr.Branch.{Branch};
ghost use Rattle.mips_isa.specs.declared.instr.ZeroBranch.{ZeroBranch};
ghost use Rattle.mips_isa.specs.declared.instr.Immediate.{Immediate};
ghost use Rattle.mips_isa.specs.declared.instr.Load.{Load};
ghost use Rattle.mips_isa.specs.declared.instr.Store.{Store};

use crate::instr::{
    Branch, HiLoOperation, Immediate, Load, MoveFrom, MoveTo, Operation, Shift, Store,
    VariableShift, ZeroBranch,
};

impl Shift {
    /// The funct of its row.
    pub fn funct(self) -> u32
        ensures value { result ≡ shift_funct self }
        ensures small { result < 2 ^ 6 }
    {
        match self {
            Shift::Sll => 0x00,
            Shift::Srl => 0x02,
            Shift::Sra => 0x03,
        }
    }

    /// The row with this funct.
    pub fn of_funct(funct: u32) -> Option<Shift>
        ensures some { IfSome result (λ row. shift_funct row ≡ funct) }
        ensures none { IfNone result ((row : Shift) → shift_funct row ≢ funct) }
    {
        match funct {
            0x00 => Some(Shift::Sll),
            0x02 => Some(Shift::Srl),
            0x03 => Some(Shift::Sra),
            _ => None,
        }
    }
}

impl VariableShift {
    /// The funct of its row.
    pub fn funct(self) -> u32
        ensures value { result ≡ variable_shift_funct self }
        ensures small { result < 2 ^ 6 }
    {
        match self {
            VariableShift::Sllv => 0x04,
            VariableShift::Srlv => 0x06,
            VariableShift::Srav => 0x07,
        }
    }

    /// The row with this funct.
    pub fn of_funct(funct: u32) -> Option<VariableShift>
        ensures some { IfSome result (λ row. variable_shift_funct row ≡ funct) }
        ensures none { IfNone result ((row : VariableShift) → variable_shift_funct row ≢ funct) }
    {
        match funct {
            0x04 => Some(VariableShift::Sllv),
            0x06 => Some(VariableShift::Srlv),
            0x07 => Some(VariableShift::Srav),
            _ => None,
        }
    }
}

impl Operation {
    /// The funct of its row.
    pub fn funct(self) -> u32
        ensures value { result ≡ operation_funct self }
        ensures small { result < 2 ^ 6 }
    {
        match self {
            Operation::Add => 0x20,
            Operation::Addu => 0x21,
            Operation::Sub => 0x22,
            Operation::Subu => 0x23,
            Operation::And => 0x24,
            Operation::Or => 0x25,
            Operation::Xor => 0x26,
            Operation::Nor => 0x27,
            Operation::Slt => 0x2A,
            Operation::Sltu => 0x2B,
        }
    }

    /// The row with this funct.
    pub fn of_funct(funct: u32) -> Option<Operation>
        ensures some { IfSome result (λ row. operation_funct row ≡ funct) }
        ensures none { IfNone result ((row : Operation) → operation_funct row ≢ funct) }
    {
        match funct {
            0x20 => Some(Operation::Add),
            0x21 => Some(Operation::Addu),
            0x22 => Some(Operation::Sub),
            0x23 => Some(Operation::Subu),
            0x24 => Some(Operation::And),
            0x25 => Some(Operation::Or),
            0x26 => Some(Operation::Xor),
            0x27 => Some(Operation::Nor),
            0x2A => Some(Operation::Slt),
            0x2B => Some(Operation::Sltu),
            _ => None,
        }
    }
}

impl HiLoOperation {
    /// The funct of its row.
    pub fn funct(self) -> u32
        ensures value { result ≡ hilo_funct self }
        ensures small { result < 2 ^ 6 }
    {
        match self {
            HiLoOperation::Mult => 0x18,
            HiLoOperation::Multu => 0x19,
            HiLoOperation::Div => 0x1A,
            HiLoOperation::Divu => 0x1B,
        }
    }

    /// The row with this funct.
    pub fn of_funct(funct: u32) -> Option<HiLoOperation>
        ensures some { IfSome result (λ row. hilo_funct row ≡ funct) }
        ensures none { IfNone result ((row : HiLoOperation) → hilo_funct row ≢ funct) }
    {
        match funct {
            0x18 => Some(HiLoOperation::Mult),
            0x19 => Some(HiLoOperation::Multu),
            0x1A => Some(HiLoOperation::Div),
            0x1B => Some(HiLoOperation::Divu),
            _ => None,
        }
    }
}

impl MoveFrom {
    /// The funct of its row.
    pub fn funct(self) -> u32
        ensures value { result ≡ from_funct self }
        ensures small { result < 2 ^ 6 }
    {
        match self {
            MoveFrom::Mfhi => 0x10,
            MoveFrom::Mflo => 0x12,
        }
    }

    /// The row with this funct.
    pub fn of_funct(funct: u32) -> Option<MoveFrom>
        ensures some { IfSome result (λ row. from_funct row ≡ funct) }
        ensures none { IfNone result ((row : MoveFrom) → from_funct row ≢ funct) }
    {
        match funct {
            0x10 => Some(MoveFrom::Mfhi),
            0x12 => Some(MoveFrom::Mflo),
            _ => None,
        }
    }
}

impl MoveTo {
    /// The funct of its row.
    pub fn funct(self) -> u32
        ensures value { result ≡ to_funct self }
        ensures small { result < 2 ^ 6 }
    {
        match self {
            MoveTo::Mthi => 0x11,
            MoveTo::Mtlo => 0x13,
        }
    }

    /// The row with this funct.
    pub fn of_funct(funct: u32) -> Option<MoveTo>
        ensures some { IfSome result (λ row. to_funct row ≡ funct) }
        ensures none { IfNone result ((row : MoveTo) → to_funct row ≢ funct) }
    {
        match funct {
            0x11 => Some(MoveTo::Mthi),
            0x13 => Some(MoveTo::Mtlo),
            _ => None,
        }
    }
}

impl Branch {
    /// The op of its row.
    pub fn op(self) -> u32
        ensures value { result ≡ branch_op self }
        ensures small { result < 2 ^ 6 }
    {
        match self {
            Branch::Beq => 0x04,
            Branch::Bne => 0x05,
        }
    }

    /// The row with this op.
    pub fn of_op(op: u32) -> Option<Branch>
        ensures some { IfSome result (λ row. branch_op row ≡ op) }
        ensures none { IfNone result ((row : Branch) → branch_op row ≢ op) }
    {
        match op {
            0x04 => Some(Branch::Beq),
            0x05 => Some(Branch::Bne),
            _ => None,
        }
    }
}

impl ZeroBranch {
    /// The op, and the number at rt, of its row.
    pub fn op_rt(self) -> (u32, u32)
        ensures value { result ≡ zero_branch_op_rt self }
        ensures small { (result.0 < 2 ^ 6) × (result.1 < 2 ^ 5) }
    {
        match self {
            ZeroBranch::Bltz => (0x01, 0),
            ZeroBranch::Bgez => (0x01, 1),
            ZeroBranch::Blez => (0x06, 0),
            ZeroBranch::Bgtz => (0x07, 0),
        }
    }

    /// The row with this op, and the number at rt.
    pub fn of_op_rt(op_rt: (u32, u32)) -> Option<ZeroBranch>
        ensures some { IfSome result (λ row. zero_branch_op_rt row ≡ op_rt) }
        ensures none { IfNone result ((row : ZeroBranch) → zero_branch_op_rt row ≢ op_rt) }
    {
        match op_rt {
            (0x01, 0) => Some(ZeroBranch::Bltz),
            (0x01, 1) => Some(ZeroBranch::Bgez),
            (0x06, 0) => Some(ZeroBranch::Blez),
            (0x07, 0) => Some(ZeroBranch::Bgtz),
            _ => None,
        }
    }
}

impl Immediate {
    /// The op of its row.
    pub fn op(self) -> u32
        ensures value { result ≡ immediate_op self }
        ensures small { result < 2 ^ 6 }
    {
        match self {
            Immediate::Addi => 0x08,
            Immediate::Addiu => 0x09,
            Immediate::Slti => 0x0A,
            Immediate::Sltiu => 0x0B,
            Immediate::Andi => 0x0C,
            Immediate::Ori => 0x0D,
            Immediate::Xori => 0x0E,
        }
    }

    /// The row with this op.
    pub fn of_op(op: u32) -> Option<Immediate>
        ensures some { IfSome result (λ row. immediate_op row ≡ op) }
        ensures none { IfNone result ((row : Immediate) → immediate_op row ≢ op) }
    {
        match op {
            0x08 => Some(Immediate::Addi),
            0x09 => Some(Immediate::Addiu),
            0x0A => Some(Immediate::Slti),
            0x0B => Some(Immediate::Sltiu),
            0x0C => Some(Immediate::Andi),
            0x0D => Some(Immediate::Ori),
            0x0E => Some(Immediate::Xori),
            _ => None,
        }
    }
}

impl Load {
    /// The op of its row.
    pub fn op(self) -> u32
        ensures value { result ≡ load_op self }
        ensures small { result < 2 ^ 6 }
    {
        match self {
            Load::Lb => 0x20,
            Load::Lh => 0x21,
            Load::Lw => 0x23,
            Load::Lbu => 0x24,
            Load::Lhu => 0x25,
        }
    }

    /// The row with this op.
    pub fn of_op(op: u32) -> Option<Load>
        ensures some { IfSome result (λ row. load_op row ≡ op) }
        ensures none { IfNone result ((row : Load) → load_op row ≢ op) }
    {
        match op {
            0x20 => Some(Load::Lb),
            0x21 => Some(Load::Lh),
            0x23 => Some(Load::Lw),
            0x24 => Some(Load::Lbu),
            0x25 => Some(Load::Lhu),
            _ => None,
        }
    }
}

impl Store {
    /// The op of its row.
    pub fn op(self) -> u32
        ensures value { result ≡ store_op self }
        ensures small { result < 2 ^ 6 }
    {
        match self {
            Store::Sb => 0x28,
            Store::Sh => 0x29,
            Store::Sw => 0x2B,
        }
    }

    /// The row with this op.
    pub fn of_op(op: u32) -> Option<Store>
        ensures some { IfSome result (λ row. store_op row ≡ op) }
        ensures none { IfNone result ((row : Store) → store_op row ≢ op) }
    {
        match op {
            0x28 => Some(Store::Sb),
            0x29 => Some(Store::Sh),
            0x2B => Some(Store::Sw),
            _ => None,
        }
    }
}
