//! The numbers by which rows of one opcode differ.

ghost use Rattle.std.specs.Prelude.{◌≡◌, ◌≢◌, ◌<◌, ◌^◌, IfSome, IfNone};
ghost use Rattle.rv_isa.specs.Words.{branch_funct3, load_funct3, store_funct3, immediate_funct3, shift_functs, operation_functs};
ghost use Rattle.rv_isa.specs.declared.instr.Branch.{Branch};
ghost use Rattle.rv_isa.specs.declared.instr.Load.{Load};
ghost use Rattle.rv_isa.specs.declared.instr.Store.{Store};
ghost use Rattle.rv_isa.specs.declared.instr.Immediate.{Immediate};
ghost use Rattle.rv_isa.specs.declared.instr.Shift.{Shift};
ghost use Rattle.rv_isa.specs.declared.instr.Operation.{Operation};

use crate::instr::{Branch, Immediate, Load, Operation, Shift, Store};

impl Branch {
    /// The funct3 of its row.
    pub fn funct3(self) -> u32
        ensures value { result ≡ branch_funct3 self }
        ensures small { result < 2 ^ 3 }
    {
        match self {
            Branch::Beq => 0,
            Branch::Bne => 1,
            Branch::Blt => 4,
            Branch::Bge => 5,
            Branch::Bltu => 6,
            Branch::Bgeu => 7,
        }
    }

    /// The row with this funct3.
    pub fn of_funct3(funct3: u32) -> Option<Branch>
        ensures some { IfSome result (λ row. branch_funct3 row ≡ funct3) }
        ensures none { IfNone result ((row : Branch) → branch_funct3 row ≢ funct3) }
    {
        match funct3 {
            0 => Some(Branch::Beq),
            1 => Some(Branch::Bne),
            4 => Some(Branch::Blt),
            5 => Some(Branch::Bge),
            6 => Some(Branch::Bltu),
            7 => Some(Branch::Bgeu),
            _ => None,
        }
    }
}

impl Load {
    /// The funct3 of its row.
    pub fn funct3(self) -> u32
        ensures value { result ≡ load_funct3 self }
        ensures small { result < 2 ^ 3 }
    {
        match self {
            Load::Lb => 0,
            Load::Lh => 1,
            Load::Lw => 2,
            Load::Lbu => 4,
            Load::Lhu => 5,
        }
    }

    /// The row with this funct3.
    pub fn of_funct3(funct3: u32) -> Option<Load>
        ensures some { IfSome result (λ row. load_funct3 row ≡ funct3) }
        ensures none { IfNone result ((row : Load) → load_funct3 row ≢ funct3) }
    {
        match funct3 {
            0 => Some(Load::Lb),
            1 => Some(Load::Lh),
            2 => Some(Load::Lw),
            4 => Some(Load::Lbu),
            5 => Some(Load::Lhu),
            _ => None,
        }
    }
}

impl Store {
    /// The funct3 of its row.
    pub fn funct3(self) -> u32
        ensures value { result ≡ store_funct3 self }
        ensures small { result < 2 ^ 3 }
    {
        match self {
            Store::Sb => 0,
            Store::Sh => 1,
            Store::Sw => 2,
        }
    }

    /// The row with this funct3.
    pub fn of_funct3(funct3: u32) -> Option<Store>
        ensures some { IfSome result (λ row. store_funct3 row ≡ funct3) }
        ensures none { IfNone result ((row : Store) → store_funct3 row ≢ funct3) }
    {
        match funct3 {
            0 => Some(Store::Sb),
            1 => Some(Store::Sh),
            2 => Some(Store::Sw),
            _ => None,
        }
    }
}

impl Immediate {
    /// The funct3 of its row.
    pub fn funct3(self) -> u32
        ensures value { result ≡ immediate_funct3 self }
        ensures small { result < 2 ^ 3 }
    {
        match self {
            Immediate::Addi => 0,
            Immediate::Slti => 2,
            Immediate::Sltiu => 3,
            Immediate::Xori => 4,
            Immediate::Ori => 6,
            Immediate::Andi => 7,
        }
    }

    /// The row with this funct3.
    pub fn of_funct3(funct3: u32) -> Option<Immediate>
        ensures some { IfSome result (λ row. immediate_funct3 row ≡ funct3) }
        ensures none { IfNone result ((row : Immediate) → immediate_funct3 row ≢ funct3) }
    {
        match funct3 {
            0 => Some(Immediate::Addi),
            2 => Some(Immediate::Slti),
            3 => Some(Immediate::Sltiu),
            4 => Some(Immediate::Xori),
            6 => Some(Immediate::Ori),
            7 => Some(Immediate::Andi),
            _ => None,
        }
    }
}

impl Shift {
    /// The funct7 and funct3 of its row.
    pub fn functs(self) -> (u32, u32)
        ensures value { result ≡ shift_functs self }
        ensures small { (result.0 < 2 ^ 7) × (result.1 < 2 ^ 3) }
    {
        match self {
            Shift::Slli => (0x00, 1),
            Shift::Srli => (0x00, 5),
            Shift::Srai => (0x20, 5),
        }
    }

    /// The row with this funct7 and this funct3.
    pub fn of_functs(functs: (u32, u32)) -> Option<Shift>
        ensures some { IfSome result (λ row. shift_functs row ≡ functs) }
        ensures none { IfNone result ((row : Shift) → shift_functs row ≢ functs) }
    {
        match functs {
            (0x00, 1) => Some(Shift::Slli),
            (0x00, 5) => Some(Shift::Srli),
            (0x20, 5) => Some(Shift::Srai),
            _ => None,
        }
    }
}

impl Operation {
    /// The funct7 and funct3 of its row.
    pub fn functs(self) -> (u32, u32)
        ensures value { result ≡ operation_functs self }
        ensures small { (result.0 < 2 ^ 7) × (result.1 < 2 ^ 3) }
    {
        match self {
            Operation::Add => (0x00, 0),
            Operation::Sub => (0x20, 0),
            Operation::Sll => (0x00, 1),
            Operation::Slt => (0x00, 2),
            Operation::Sltu => (0x00, 3),
            Operation::Xor => (0x00, 4),
            Operation::Srl => (0x00, 5),
            Operation::Sra => (0x20, 5),
            Operation::Or => (0x00, 6),
            Operation::And => (0x00, 7),
            Operation::Mul => (0x01, 0),
            Operation::Mulh => (0x01, 1),
            Operation::Mulhsu => (0x01, 2),
            Operation::Mulhu => (0x01, 3),
            Operation::Div => (0x01, 4),
            Operation::Divu => (0x01, 5),
            Operation::Rem => (0x01, 6),
            Operation::Remu => (0x01, 7),
        }
    }

    /// The row with this funct7 and this funct3.
    pub fn of_functs(functs: (u32, u32)) -> Option<Operation>
        ensures some { IfSome result (λ row. operation_functs row ≡ functs) }
        ensures none { IfNone result ((row : Operation) → operation_functs row ≢ functs) }
    {
        match functs {
            (0x00, 0) => Some(Operation::Add),
            (0x20, 0) => Some(Operation::Sub),
            (0x00, 1) => Some(Operation::Sll),
            (0x00, 2) => Some(Operation::Slt),
            (0x00, 3) => Some(Operation::Sltu),
            (0x00, 4) => Some(Operation::Xor),
            (0x00, 5) => Some(Operation::Srl),
            (0x20, 5) => Some(Operation::Sra),
            (0x00, 6) => Some(Operation::Or),
            (0x00, 7) => Some(Operation::And),
            (0x01, 0) => Some(Operation::Mul),
            (0x01, 1) => Some(Operation::Mulh),
            (0x01, 2) => Some(Operation::Mulhsu),
            (0x01, 3) => Some(Operation::Mulhu),
            (0x01, 4) => Some(Operation::Div),
            (0x01, 5) => Some(Operation::Divu),
            (0x01, 6) => Some(Operation::Rem),
            (0x01, 7) => Some(Operation::Remu),
            _ => None,
        }
    }
}
