//! Reads single fields. Each call answers the value and the bytes behind it. Its `Fault` comes exactly where the field is cut
//! short or breaks its rule, and says how many bytes are left where the first such field starts. What is read has at least so many bytes
//! (`least`).
ghost use Rattle.std.specs.Prelude.{◌+◌, ◌≤◌, length, IfOk};
ghost use Rattle.ec_formats.specs.Answers.{Gives};
ghost use Rattle.ec_formats.specs.Fields.{mark, number, number_up_to, number_from, number_above, integer, truth, text};
ghost use Rattle.ec_formats.specs.Format.{Format, nothing_behind};

use crate::error::FieldError;
use ec_base::list::Seq;
use std::alloc::Global;

/// The bytes of a sign, which are one field. Answers the bytes behind it.
pub fn read_mark<'a>(sign: &[u8], bytes: &'a [u8]) -> Result<&'a [u8], FieldError>
    ensures { Gives (λ rest. (tt, rest.now)) result ((mark sign.now).read bytes.now) }
{
    if !bytes.starts_with(sign) {
        return Err(FieldError::Fault(bytes.len()));
    }
    Ok(&bytes[sign.len()..])
}

/// A number of four bytes, the highest first.
pub fn read_number(bytes: &[u8]) -> Result<(u32, &[u8]), FieldError>
    ensures value { Gives (λ x. (x.0, x.1.now)) result (number.read bytes.now) }
    ensures least { IfOk result (λ x. length x.1.now + 4 ≤ length bytes.now) }
{
    if bytes.len() < 4 {
        return Err(FieldError::Fault(bytes.len()));
    }
    let (front, rest) = bytes.split_at(4);
    let number = u32::from_be_bytes([front[0], front[1], front[2], front[3]]);
    Ok((number, rest))
}

/// A number that is `limit` at most.
pub fn read_number_up_to(limit: u32, bytes: &[u8]) -> Result<(u32, &[u8]), FieldError>
    ensures value { Gives (λ x. (x.0, x.1.now)) result ((number_up_to limit).read bytes.now) }
    ensures least { IfOk result (λ x. length x.1.now + 4 ≤ length bytes.now) }
{
    let (number, rest) = read_number(bytes)?;
    if number > limit {
        return Err(FieldError::Fault(bytes.len()));
    }
    Ok((number, rest))
}

/// A number that is `least` at least.
pub fn read_number_from(least: u32, bytes: &[u8]) -> Result<(u32, &[u8]), FieldError>
    ensures value { Gives (λ x. (x.0, x.1.now)) result ((number_from least).read bytes.now) }
    ensures least { IfOk result (λ x. length x.1.now + 4 ≤ length bytes.now) }
{
    let (number, rest) = read_number(bytes)?;
    if number < least {
        return Err(FieldError::Fault(bytes.len()));
    }
    Ok((number, rest))
}

/// A number above `bound`.
pub fn read_number_above(bound: u32, bytes: &[u8]) -> Result<(u32, &[u8]), FieldError>
    ensures value { Gives (λ x. (x.0, x.1.now)) result ((number_above bound).read bytes.now) }
    ensures least { IfOk result (λ x. length x.1.now + 4 ≤ length bytes.now) }
{
    let (number, rest) = read_number(bytes)?;
    if number <= bound {
        return Err(FieldError::Fault(bytes.len()));
    }
    Ok((number, rest))
}

/// A number from -2^31 to 2^31 - 1, in two's complement.
pub fn read_integer(bytes: &[u8]) -> Result<(i32, &[u8]), FieldError>
    ensures value { Gives (λ x. (x.0, x.1.now)) result (integer.read bytes.now) }
    ensures least { IfOk result (λ x. length x.1.now + 4 ≤ length bytes.now) }
{
    let (number, rest) = read_number(bytes)?;
    Ok((number.cast_signed(), rest))
}

/// A truth value: a byte that is 0 or 1.
pub fn read_truth(bytes: &[u8]) -> Result<(bool, &[u8]), FieldError>
    ensures value { Gives (λ x. (x.0, x.1.now)) result (truth.read bytes.now) }
    ensures least { IfOk result (λ x. length x.1.now + 1 ≤ length bytes.now) }
{
    match bytes {
        [] => Err(FieldError::Fault(0)),
        [0, rest @ ..] => Ok((false, rest)),
        [1, rest @ ..] => Ok((true, rest)),
        [_, ..] => Err(FieldError::Fault(bytes.len())),
    }
}

/// A text: its length, which is `limit` at most, and that many bytes, which are one field.
pub fn read_text(alloc: Global, limit: u32, bytes: &[u8]) -> Result<(Seq<u8>, &[u8]), FieldError>
    ensures value { Gives (λ x. (x.0, x.1.now)) result ((text limit).read bytes.now) }
    ensures least { IfOk result (λ x. length x.1.now + 4 ≤ length bytes.now) }
{
    let (length, rest) = read_number_up_to(limit, bytes)?;
    let length = length as usize;
    if rest.len() < length {
        return Err(FieldError::Fault(rest.len()));
    }
    let (text, rest) = rest.split_at(length);
    Ok((Seq::from_vec(Vec::from_slice(alloc, text)?), rest))
}

/// The value, where no bytes are left behind it. Bytes that are left over are a fault at the first of them.
pub fn with_nothing_behind<T: Drop>(value: T, rest: &[u8]) -> Result<T, FieldError>
    ensures { Gives (λ x. x) result (nothing_behind (value, rest.now)) }
{
    if !rest.is_empty() {
        return Err(FieldError::Fault(rest.len()));
    }
    Ok(value)
}
