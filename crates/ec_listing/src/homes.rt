//! What a listing calls types, variables and homes.
ghost use Rattle.std.specs.Prelude.{◌≡◌, ◌<◌};
ghost use Rattle.rv_code.specs.Words as rv;
ghost use Rattle.mips_code.specs.Words as mips;

use crate::names::put_name;
use ec_code::code::{Operation, Variable};
use ec_machine_code::homes::Home;
use ec_types::conform::TypeTable;
use ec_types::conform::static_type::{Plain, StaticType};
use ec_world::node::Kind;
use std::alloc::AllocError;
use std::fmt::Write;

/// Writes a static type.
pub fn put_type(table: &TypeTable, of: StaticType, out: &mut String) -> Result<(), AllocError> {
    match of {
        StaticType::Plain(of) => put_plain(table, of, out),
        StaticType::Vector(inner, of) => {
            put_times(inner, "Vector.of[", out)?;
            out.push_str("Vector.of[")?;
            put_plain(table, of, out)?;
            put_times(inner, "]", out)?;
            out.push(']')
        }
        StaticType::Nil => out.push_str("nil"),
        StaticType::Unknown => out.push_str("of an unknown type"),
    }
}

/// Writes a text so many times.
fn put_times(times: usize, text: &str, out: &mut String) -> Result<(), AllocError> {
    for _ in 0..times {
        out.push_str(text)?;
    }
    Ok(())
}

fn put_plain(table: &TypeTable, of: Plain, out: &mut String) -> Result<(), AllocError> {
    match of {
        Plain::Integer => out.push_str("Integer"),
        Plain::Boolean => out.push_str("Boolean"),
        Plain::String => out.push_str("String"),
        Plain::Any => out.push_str("Any"),
        Plain::Node => out.push_str("Node"),
        Plain::Named(number) => match table.name(number) {
            Some(name) => put_name(name, out),
            None => write!(out, "type {number}"),
        },
    }
}

/// Writes what a variable of an operation is: a parameter, the result, a local, or a value that is held.
pub fn put_variable(
    operation: &Operation,
    variable: Variable,
    out: &mut String,
) -> Result<(), AllocError> {
    let number = match variable {
        Variable::Named(number) => number as usize,
        Variable::Temporary(below) => return write!(out, "held {below}"),
    };
    let parameters = operation.parameters.len();
    if number < parameters {
        return write!(out, "parameter {number}");
    }
    let behind = number - parameters;
    if operation.result.is_none() {
        return write!(out, "local {behind}");
    }
    match behind.checked_sub(1) {
        Some(local) => write!(out, "local {local}"),
        None => out.push_str("result"),
    }
}

/// Writes where a home is: the register as GNU syntax has it, or the slot of the frame.
pub fn put_home(kind: Kind, home: Home, out: &mut String) -> Result<(), AllocError> {
    match home {
        Home::Slot(slot) => write!(out, "slot {slot}"),
        Home::Register(number) => {
            let register = home_register(kind, number);
            match kind {
                Kind::Riscv => write!(out, "x{register}"),
                Kind::Mips => write!(out, "${register}"),
            }
        }
    }
}

/// The register of the machine that is the home of a number.
fn home_register(kind: Kind, number: u32) -> u32
    ensures riscv { kind ≡ Kind.Riscv → number < 10 → result ≡ rv.home_register number }
    ensures mips { kind ≡ Kind.Mips → number < 6 → result ≡ mips.home_register number }
{
    match kind {
        Kind::Riscv => number.saturating_add(18),
        Kind::Mips => number.saturating_add(16),
    }
}
