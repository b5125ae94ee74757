//! The code of a program as a table: its literals, and the lines of each operation.
use crate::error::Fault;
use crate::steps::{step_text, variable_text};
use ec_code::code::{Line, Live, Parts};
use std::alloc::{AllocError, Global};

/// Prints the code of a program.
pub fn print_code(rt: &impl Print, alloc: Global, parts: &Parts) -> Result<(), Fault> {
    for (index, text) in parts.literals.as_slice().iter().enumerate() {
        match str::from_utf8(text.as_slice()) {
            Ok(text) => println!(rt; "literal {index} \"{text}\"")?,
            Err(_) => println!(rt; "literal {index} (no text)")?,
        }
    }
    for (number, operation) in parts.operations.as_slice().iter().enumerate() {
        println!(rt; "operation {number} of {:?}", operation.class)?;
        print_lines(rt, alloc, operation.code.as_slice())?;
    }
    Ok(())
}

/// Prints each line: its place, the variables that are live there, and its step.
fn print_lines(rt: &impl Print, alloc: Global, lines: &[Line]) -> Result<(), Fault> {
    for (place, line) in lines.iter().enumerate() {
        let live = live_text(alloc, line.live.as_slice())?;
        let step = step_text(alloc, &line.op)?;
        println!(rt; "{place} [{live}] {step}")?;
    }
    Ok(())
}

/// The names of live variables.
fn live_text(alloc: Global, live: &[Live]) -> Result<String, AllocError> {
    let mut text = String::new(alloc);
    for one in live {
        if !text.is_empty() {
            text.push(' ')?;
        }
        text.push_str(variable_text(alloc, one.variable)?.as_str())?;
    }
    Ok(text)
}
