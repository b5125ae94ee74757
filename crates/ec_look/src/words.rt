//! Values, causes of failures and what processes wait for, in words.
use ec_world::process::{Cause, ProcStatus};
use ec_world::value::Value;
use std::alloc::{AllocError, Global};

/// How many bytes of a text are shown.
const SHOWN: usize = 40;

/// A text between quotes, shortened where it is long.
pub(crate) fn put_quoted(text: &[u8], out: &mut String) -> Result<(), AllocError> {
    out.push('"')?;
    for byte in text.iter().take(SHOWN) {
        put_byte(*byte, out)?;
    }
    if text.len() > SHOWN {
        out.push_str("..")?;
    }
    out.push('"')
}

/// A byte of a text, as a source spells it where it has a spelling.
fn put_byte(byte: u8, out: &mut String) -> Result<(), AllocError> {
    match byte {
        b'\n' => out.push_str("\\n"),
        b'\t' => out.push_str("\\t"),
        b'"' => out.push_str("\\\""),
        b'\\' => out.push_str("\\\\"),
        b' '..=b'~' => out.push(char::from(byte)),
        _ => write!(out, "\\x{byte:02x}"),
    }
}

/// A value, with `object 4` for a reference.
fn put_value(value: &Value, out: &mut String) -> Result<(), AllocError> {
    match value {
        Value::Int(number) => write!(out, "{number}"),
        Value::Bool(truth) => write!(out, "{truth}"),
        Value::Str(text) => put_quoted(text.as_slice(), out),
        Value::Ref(object) => write!(out, "object {object}"),
        Value::Nil => out.push_str("nil"),
    }
}

/// The operands of a stop, between brackets.
pub(crate) fn put_operands(operands: &[Value], out: &mut String) -> Result<(), AllocError> {
    if operands.is_empty() {
        return Ok(());
    }
    for (place, value) in operands.iter().enumerate() {
        out.push_str(if place == 0 { "(" } else { ", " })?;
        put_value(value, out)?;
    }
    out.push(')')
}

/// Why a process failed.
pub(crate) fn cause_text(cause: Cause) -> &'static str {
    match cause {
        Cause::Nil => "nil has no operations",
        Cause::ZeroDivisor => "a divisor is 0",
        Cause::FalseAssertion => "what is asserted is false",
        Cause::OutOfRange => "an index or a slice is out of range",
        Cause::NotConforming => "the object doesn't conform to the type",
        Cause::GroupFixed => "a member of the group is fixed",
        Cause::VectorSize => "a vector can't have that many elements",
        Cause::NoSuchNode => "no node has that number",
        Cause::LongText => "the text would be too long",
        Cause::NodeFixed => "a node stays where it is",
    }
}

/// What a process waits for, where it does.
pub(crate) fn wait_text(alloc: Global, status: ProcStatus) -> Result<Option<String>, AllocError> {
    match status {
        ProcStatus::Entry(object) => {
            Ok(Some(format!(in alloc; "to enter the monitor of object {object}")?))
        }
        ProcStatus::Cond(object) => {
            Ok(Some(format!(in alloc; "for a signal in object {object}")?))
        }
        ProcStatus::Urgent(object) => {
            Ok(Some(format!(in alloc; "to go on in the monitor of object {object}")?))
        }
        ProcStatus::Ready | ProcStatus::Ended | ProcStatus::Failed { .. } => Ok(None),
    }
}
