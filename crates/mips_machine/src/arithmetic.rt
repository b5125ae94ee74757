//! What instructions compute: each call is a row of the table, and products, quotients and signs have the manual's laws.

ghost use Rattle.std.specs.Prelude.{◌≡◌, ◌≢◌, ◌-◌, ◌*◌, ◌/◌, ◌%◌, ◌<◌, ◌^◌, ◌+ℤ◌, ◌-ℤ◌, false};
ghost use Rattle.std.specs.Bool.{OnFalse};
ghost use Rattle.mips_machine.specs.Laws.{number_in, IsProduct, IsUnsignedProduct, IsDivision, IsUnsignedDivision};
ghost use Rattle.mips_machine.specs.Values.{plus, minus, extended, signed, is_beyond, shift_value, variable_shift_value};
ghost use Rattle.mips_machine.specs.Values.{operation_value, operation_overflows, immediate_number, immediate_value};
ghost use Rattle.mips_machine.specs.Values.{immediate_overflows, hi_value, lo_value, is_undefined, is_taken, is_zero_taken, wide};
ghost use Rattle.mips_machine.specs.Values.{upper, quotient, remainder};

use mips_isa::instr::{
    Branch, HiLoOperation, Immediate, Operation, Shift, VariableShift, ZeroBranch,
};

/// A product of two words, or what a division of two words gives, as HI and LO hold it.
#[derive(Clone, Copy, PartialEq, Eq, Debug)]
pub struct HiLo {
    /// The upper word, or the remainder.
    pub hi: u32,
    /// The lower word, or the quotient.
    pub lo: u32,
}

/// A number of so many bits in two's complement, at 32 bits.
pub fn extended(bits: u32, number: u32) -> u32
    requires some { 0 < bits }
    requires few { bits < 32 }
    requires fits { number < 2 ^ bits }
    ensures value { result ≡ extended bits number }
    ensures same_number { signed result ≡ number_in bits number }
{
    if number < 1 << (bits - 1) {
        number
    } else {
        number + (u32::MAX - ((1 << bits) - 1))
    }
}

/// A shift of the word of rt.
pub fn on_shift(shift: Shift, b: u32, amount: u32) -> u32
    requires { amount < 32 }
    ensures { result ≡ shift_value shift b amount }
{
    match shift {
        Shift::Sll => b << amount,
        Shift::Srl => b >> amount,
        Shift::Sra => (b.cast_signed() >> amount).cast_unsigned(),
    }
}

/// A shift of the word of rt by the low five bits of the word of rs.
pub(crate) fn on_variable_shift(shift: VariableShift, b: u32, a: u32) -> u32
    ensures { result ≡ variable_shift_value shift b a }
{
    match shift {
        VariableShift::Sllv => b.wrapping_shl(a),
        VariableShift::Srlv => b.wrapping_shr(a),
        VariableShift::Srav => b.cast_signed().wrapping_shr(a).cast_unsigned(),
    }
}

/// An operation on the words of rs and rt.
pub fn on_registers(operation: Operation, a: u32, b: u32) -> u32
    ensures { result ≡ operation_value operation a b }
{
    match operation {
        Operation::Add | Operation::Addu => a.wrapping_add(b),
        Operation::Sub | Operation::Subu => a.wrapping_sub(b),
        Operation::And => a & b,
        Operation::Or => a | b,
        Operation::Xor => a ^ b,
        Operation::Nor => u32::MAX - (a | b),
        Operation::Slt => u32::from(a.cast_signed() < b.cast_signed()),
        Operation::Sltu => u32::from(a < b),
    }
}

/// Whether an operation on the words of rs and rt overflows.
pub(crate) fn operation_overflows(operation: Operation, a: u32, b: u32) -> bool
    ensures { result ≡ operation_overflows operation a b }
{
    match operation {
        Operation::Add => sum_overflows(a, b),
        Operation::Sub => difference_overflows(a, b),
        _ => false,
    }
}

/// The number of an immediate, at 32 bits.
pub(crate) fn immediate_number(operation: Immediate, number: u32) -> u32
    requires { number < 2 ^ 16 }
    ensures { result ≡ immediate_number operation number }
{
    match operation {
        Immediate::Addi | Immediate::Addiu | Immediate::Slti | Immediate::Sltiu => {
            extended(16, number)
        }
        Immediate::Andi | Immediate::Ori | Immediate::Xori => number,
    }
}

/// An operation on the word of rs and the number of an immediate.
pub fn on_immediate(operation: Immediate, a: u32, number: u32) -> u32
    ensures { result ≡ immediate_value operation a number }
{
    match operation {
        Immediate::Addi | Immediate::Addiu => a.wrapping_add(number),
        Immediate::Slti => u32::from(a.cast_signed() < number.cast_signed()),
        Immediate::Sltiu => u32::from(a < number),
        Immediate::Andi => a & number,
        Immediate::Ori => a | number,
        Immediate::Xori => a ^ number,
    }
}

/// Whether an operation on the word of rs and the number of an immediate overflows.
pub(crate) fn immediate_overflows(operation: Immediate, a: u32, number: u32) -> bool
    ensures { result ≡ immediate_overflows operation a number }
{
    match operation {
        Immediate::Addi => sum_overflows(a, number),
        _ => false,
    }
}

/// What an operation on the words of rs and rt leaves in HI and LO.
pub(crate) fn on_hilo(operation: HiLoOperation, a: u32, b: u32) -> HiLo
    requires { is_undefined operation a b ≡ false }
    ensures hi { result.hi ≡ hi_value operation a b }
    ensures lo { result.lo ≡ lo_value operation a b }
{
    match operation {
        HiLoOperation::Mult => multiply(a, b),
        HiLoOperation::Multu => multiply_unsigned(a, b),
        HiLoOperation::Div => divide(a, b),
        HiLoOperation::Divu => divide_unsigned(a, b),
    }
}

/// Whether the manual leaves the result undefined.
pub(crate) fn is_undefined(operation: HiLoOperation, a: u32, b: u32) -> bool
    ensures { result ≡ is_undefined operation a b }
{
    match operation {
        HiLoOperation::Mult | HiLoOperation::Multu => false,
        HiLoOperation::Div => b == 0 || (a == 0x8000_0000 && b == u32::MAX),
        HiLoOperation::Divu => b == 0,
    }
}

/// Whether a branch is taken, where rs and rt hold these words.
pub fn is_taken(branch: Branch, a: u32, b: u32) -> bool
    ensures { result ≡ is_taken branch a b }
{
    match branch {
        Branch::Beq => a == b,
        Branch::Bne => a != b,
    }
}

/// Whether a branch is taken, where rs holds this word.
pub(crate) fn is_zero_taken(branch: ZeroBranch, a: u32) -> bool
    ensures { result ≡ is_zero_taken branch a }
{
    match branch {
        ZeroBranch::Bltz => a.cast_signed() < 0,
        ZeroBranch::Bgez => a.cast_signed() >= 0,
        ZeroBranch::Blez => a.cast_signed() <= 0,
        ZeroBranch::Bgtz => a.cast_signed() > 0,
    }
}

/// Whether the sum of two signed words overflows.
pub(crate) fn sum_overflows(a: u32, b: u32) -> bool
    ensures value { result ≡ is_beyond (signed a +ℤ signed b) }
    ensures exact { OnFalse result (signed (plus a b) ≡ signed a +ℤ signed b) }
{
    is_beyond(sum(a, b))
}

/// Whether the difference of two signed words overflows.
pub(crate) fn difference_overflows(a: u32, b: u32) -> bool
    ensures value { result ≡ is_beyond (signed a -ℤ signed b) }
    ensures exact { OnFalse result (signed (minus a b) ≡ signed a -ℤ signed b) }
{
    is_beyond(difference(a, b))
}

// The sum of two signed words.
fn sum(a: u32, b: u32) -> i64
    ensures { result ≡ signed a +ℤ signed b }
{
    i64::from(a.cast_signed()) + i64::from(b.cast_signed())
}

// The difference of two signed words.
fn difference(a: u32, b: u32) -> i64
    ensures { result ≡ signed a -ℤ signed b }
{
    i64::from(a.cast_signed()) - i64::from(b.cast_signed())
}

// Whether no word stands for a number.
fn is_beyond(number: i64) -> bool
    ensures { result ≡ is_beyond number }
{
    number < -0x8000_0000 || 0x7FFF_FFFF < number
}

/// The product of two signed words.
pub fn multiply(a: u32, b: u32) -> HiLo
    ensures upper { result.hi ≡ upper (wide a) (wide b) }
    ensures lower { result.lo ≡ a * b % 2 ^ 32 }
    ensures product { IsProduct (signed a) (signed b) result.hi result.lo }
{
    HiLo {
        hi: upper(wide(a), wide(b)),
        lo: a.wrapping_mul(b),
    }
}

/// The product of two unsigned words.
pub fn multiply_unsigned(a: u32, b: u32) -> HiLo
    ensures upper { result.hi ≡ upper a b }
    ensures lower { result.lo ≡ a * b % 2 ^ 32 }
    ensures product { IsUnsignedProduct a b result.hi result.lo }
{
    HiLo {
        hi: upper(u64::from(a), u64::from(b)),
        lo: a.wrapping_mul(b),
    }
}

/// A signed word divided by another.
pub fn divide(a: u32, b: u32) -> HiLo
    requires some { b ≢ 0 }
    requires fits { a ≡ 2 ^ 31 → b ≢ 2 ^ 32 - 1 }
    ensures quotient { result.lo ≡ quotient a b }
    ensures remainder { result.hi ≡ remainder a b }
    ensures division { IsDivision a b result.lo result.hi }
{
    HiLo {
        hi: remainder(a, b),
        lo: quotient(a, b),
    }
}

/// An unsigned word divided by another.
pub fn divide_unsigned(a: u32, b: u32) -> HiLo
    requires { 0 < b }
    ensures quotient { result.lo ≡ a / b }
    ensures remainder { result.hi ≡ a % b }
    ensures division { IsUnsignedDivision a b result.lo result.hi }
{
    HiLo {
        hi: a % b,
        lo: a / b,
    }
}

fn quotient(a: u32, b: u32) -> u32
    requires { 0 < b }
    ensures { result ≡ quotient a b }
{
    a.cast_signed()
        .wrapping_div(b.cast_signed())
        .cast_unsigned()
}

fn remainder(a: u32, b: u32) -> u32
    requires { 0 < b }
    ensures { result ≡ remainder a b }
{
    a.cast_signed()
        .wrapping_rem(b.cast_signed())
        .cast_unsigned()
}

// A signed word, at 64 bits.
fn wide(a: u32) -> u64
    ensures { result ≡ wide a }
{
    if a < 0x8000_0000 {
        u64::from(a)
    } else {
        u64::from(a) + 0xFFFF_FFFF_0000_0000
    }
}

// The upper word of a product.
fn upper(a: u64, b: u64) -> u32
    ensures { result ≡ upper a b }
{
    (a.wrapping_mul(b) >> 32) as u32
}
