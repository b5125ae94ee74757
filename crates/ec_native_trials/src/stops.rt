//! The stops of native code that a run of a loop comes to.
use ec_code::code::{Op, Operation, Parts, StopRow};
use ec_compile::compile::Compiled;
use ec_generate::table::StopId;
use ec_machine_code::homes::Home;
use ec_world::stop::Stop;

/// The address of the entry of the first operation that has a loop.
pub fn entry_of_loop(made: &Compiled) -> Option<u32> {
    let operation = first_with_loop(made.program.parts())?;
    let code = made.image.code.operations.get(operation)?;
    code.stops.get(0).copied()
}

/// The first operation that has a loop, by its number.
fn first_with_loop(parts: &Parts) -> Option<usize> {
    parts.operations.as_slice().iter().position(has_loop)
}

fn has_loop(operation: &Operation) -> bool {
    for line in operation.code.as_slice() {
        if let Op::Rest(row) = &line.op {
            if let Stop::LoopTop = row.stop {
                return true;
            }
        }
    }
    false
}

/// Whether nothing is to be done at the stop at an address but to go on behind it: at an entry, and at the top of a loop.
pub fn is_passed(made: &Compiled, pc: u32) -> bool {
    match stop_at(made, pc) {
        Some(row) => match row.stop {
            Stop::Entry | Stop::LoopTop => true,
            _ => false,
        },
        None => false,
    }
}

/// The stop at an address.
fn stop_at(made: &Compiled, pc: u32) -> Option<&StopRow> {
    let StopId { operation, stop } = made.image.table.at_pc(pc)?;
    let entry = made
        .image
        .table
        .operations
        .get(operation as usize)?
        .stops
        .get(stop as usize)?;
    let code = &made
        .program
        .parts()
        .operations
        .get(operation as usize)?
        .code;
    match &code.get(entry.place as usize)?.op {
        Op::Rest(row) => Some(row),
        _ => None,
    }
}

/// Where the first operand of the stop at an address lives.
pub fn home_of_operand(made: &Compiled, pc: u32) -> Option<Home> {
    let StopId { operation, stop } = made.image.table.at_pc(pc)?;
    let table = made.image.table.operations.get(operation as usize)?;
    let operand = table.stops.get(stop as usize)?.operands.get(0)?;
    Some(table.home(operand.variable))
}
