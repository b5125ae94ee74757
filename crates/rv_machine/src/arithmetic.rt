//! What instructions compute: each call is a row of the table, and products, quotients and signs have the manual's laws.

ghost use Rattle.std.specs.Prelude.{◌≡◌, ◌*◌, ◌%◌, ◌<◌, ◌^◌, pos};
ghost use Rattle.rv_machine.specs.Laws.{number_in, IsProduct, IsUnsignedProduct, IsDivision, IsUnsignedDivision};
ghost use Rattle.rv_machine.specs.Values.{extended, signed, immediate_value, shift_value, operation_value, is_taken, wide, upper};
ghost use Rattle.rv_machine.specs.Values.{quotient, remainder, quotient_unsigned, remainder_unsigned};

use rv_isa::instr::{Branch, Immediate, Operation, Shift};

/// A product of two words.
#[derive(Clone, Copy, PartialEq, Eq, Debug)]
pub struct Product {
    pub upper: u32,
    pub lower: u32,
}

/// What a division of two words gives.
#[derive(Clone, Copy, PartialEq, Eq, Debug)]
pub struct Division {
    pub quotient: u32,
    pub remainder: u32,
}

/// A number of so many bits in two's complement, at 32 bits.
pub fn extended(bits: u32, number: u32) -> u32
    requires some { 0 < bits }
    requires few { bits < 32 }
    requires fits { number < 2 ^ bits }
    ensures value { result ≡ extended bits number }
    ensures same_number { signed result ≡ number_in bits number }
{
    if number < 1 << (bits - 1) {
        number
    } else {
        number + (u32::MAX - ((1 << bits) - 1))
    }
}

/// An operation on the word of rs1 and a sign-extended immediate.
pub fn on_immediate(operation: Immediate, a: u32, number: u32) -> u32
    ensures { result ≡ immediate_value operation a number }
{
    match operation {
        Immediate::Addi => a.wrapping_add(number),
        Immediate::Slti => u32::from(a.cast_signed() < number.cast_signed()),
        Immediate::Sltiu => u32::from(a < number),
        Immediate::Xori => a ^ number,
        Immediate::Ori => a | number,
        Immediate::Andi => a & number,
    }
}

/// A shift of the word of rs1.
pub fn on_shift(shift: Shift, a: u32, amount: u32) -> u32
    requires { amount < 32 }
    ensures { result ≡ shift_value shift a amount }
{
    match shift {
        Shift::Slli => a << amount,
        Shift::Srli => a >> amount,
        Shift::Srai => (a.cast_signed() >> amount).cast_unsigned(),
    }
}

/// An operation on the words of rs1 and rs2.
pub fn on_registers(operation: Operation, a: u32, b: u32) -> u32
    ensures { result ≡ operation_value operation a b }
{
    match operation {
        Operation::Add => a.wrapping_add(b),
        Operation::Sub => a.wrapping_sub(b),
        Operation::Sll => a.wrapping_shl(b),
        Operation::Slt => u32::from(a.cast_signed() < b.cast_signed()),
        Operation::Sltu => u32::from(a < b),
        Operation::Xor => a ^ b,
        Operation::Srl => a.wrapping_shr(b),
        Operation::Sra => a.cast_signed().wrapping_shr(b).cast_unsigned(),
        Operation::Or => a | b,
        Operation::And => a & b,
        Operation::Mul => multiply(a, b).lower,
        Operation::Mulh => multiply(a, b).upper,
        Operation::Mulhsu => multiply_mixed(a, b).upper,
        Operation::Mulhu => multiply_unsigned(a, b).upper,
        Operation::Div => divide(a, b).quotient,
        Operation::Divu => divide_unsigned(a, b).quotient,
        Operation::Rem => divide(a, b).remainder,
        Operation::Remu => divide_unsigned(a, b).remainder,
    }
}

/// Whether a branch is taken, where rs1 and rs2 hold these words.
pub fn is_taken(branch: Branch, a: u32, b: u32) -> bool
    ensures { result ≡ is_taken branch a b }
{
    match branch {
        Branch::Beq => a == b,
        Branch::Bne => a != b,
        Branch::Blt => a.cast_signed() < b.cast_signed(),
        Branch::Bge => a.cast_signed() >= b.cast_signed(),
        Branch::Bltu => a < b,
        Branch::Bgeu => a >= b,
    }
}

/// The product of two signed words.
pub fn multiply(a: u32, b: u32) -> Product
    ensures upper { result.upper ≡ upper (wide a) (wide b) }
    ensures lower { result.lower ≡ a * b % 2 ^ 32 }
    ensures product { IsProduct (signed a) (signed b) result.upper result.lower }
{
    Product {
        upper: upper(wide(a), wide(b)),
        lower: a.wrapping_mul(b),
    }
}

/// The product of a signed and an unsigned word.
pub fn multiply_mixed(a: u32, b: u32) -> Product
    ensures upper { result.upper ≡ upper (wide a) b }
    ensures lower { result.lower ≡ a * b % 2 ^ 32 }
    ensures product { IsProduct (signed a) (pos b) result.upper result.lower }
{
    Product {
        upper: upper(wide(a), u64::from(b)),
        lower: a.wrapping_mul(b),
    }
}

/// The product of two unsigned words.
pub fn multiply_unsigned(a: u32, b: u32) -> Product
    ensures upper { result.upper ≡ upper a b }
    ensures lower { result.lower ≡ a * b % 2 ^ 32 }
    ensures product { IsUnsignedProduct a b result.upper result.lower }
{
    Product {
        upper: upper(u64::from(a), u64::from(b)),
        lower: a.wrapping_mul(b),
    }
}

/// A signed word divided by another.
pub fn divide(a: u32, b: u32) -> Division
    ensures quotient { result.quotient ≡ quotient a b }
    ensures remainder { result.remainder ≡ remainder a b }
    ensures division { IsDivision a b result.quotient result.remainder }
{
    Division {
        quotient: quotient(a, b),
        remainder: remainder(a, b),
    }
}

/// An unsigned word divided by another.
pub fn divide_unsigned(a: u32, b: u32) -> Division
    ensures quotient { result.quotient ≡ quotient_unsigned a b }
    ensures remainder { result.remainder ≡ remainder_unsigned a b }
    ensures division { IsUnsignedDivision a b result.quotient result.remainder }
{
    if b == 0 {
        return Division {
            quotient: u32::MAX,
            remainder: a,
        };
    }
    Division {
        quotient: a / b,
        remainder: a % b,
    }
}

fn quotient(a: u32, b: u32) -> u32
    ensures { result ≡ quotient a b }
{
    if b == 0 {
        u32::MAX
    } else {
        a.cast_signed()
            .wrapping_div(b.cast_signed())
            .cast_unsigned()
    }
}

fn remainder(a: u32, b: u32) -> u32
    ensures { result ≡ remainder a b }
{
    if b == 0 {
        a
    } else {
        a.cast_signed()
            .wrapping_rem(b.cast_signed())
            .cast_unsigned()
    }
}

// A signed word, at 64 bits.
fn wide(a: u32) -> u64
    ensures { result ≡ wide a }
{
    if a < 0x8000_0000 {
        u64::from(a)
    } else {
        u64::from(a) + 0xFFFF_FFFF_0000_0000
    }
}

// The upper word of a product.
fn upper(a: u64, b: u64) -> u32
    ensures { result ≡ upper a b }
{
    (a.wrapping_mul(b) >> 32) as u32
}
