//! Reads the parcels of a table that standard input holds and writes them again, and tells of each line that comes out otherwise.
#![tactic(auto)]

mod error;

use crate::error::{Fault, TableError};
use ec_wire::error::ReadError;
use std::alloc::{AllocError, Global};
use std::io;
use std::process::ExitCode;

fn main(rt: HostRuntime) -> ExitCode {
    match run_input(&rt) {
        Ok(0) => ExitCode::from(0),
        Ok(_) => ExitCode::from(1),
        Err(_) => ExitCode::from(2),
    }
}

/// Tries the lines of standard input, tells of each that comes out otherwise, and answers how many do.
fn run_input(rt: &HostRuntime) -> Result<u32, TableError> {
    let table = io::read_to_string(rt.alloc(), rt.reader())?;
    let (mut passed, mut failed) = (0u32, 0u32);
    for (index, text) in table.lines().enumerate() {
        if text.is_empty() || text.starts_with('#') {
            continue;
        }
        let line = index.saturating_add(1);
        match unlike(rt.alloc(), text) {
            Ok(None) => passed = passed.saturating_add(1),
            Ok(Some(came)) => {
                failed = failed.saturating_add(1);
                println!(rt; "line {line} came {came}")?;
            }
            Err(fault) => return Err(TableError::Refused { line, fault }),
        }
    }
    println!(rt; "{passed} passed, {failed} failed")?;
    Ok(failed)
}

/// What comes of a line, where that isn't what the line says.
fn unlike(alloc: Global, line: &str) -> Result<Option<String>, Fault> {
    let Some((digits, wanted)) = line.split_once(" -> ") else {
        return Err(Fault::NoSuchLine);
    };
    let mut bytes = Vec::new(alloc);
    for part in digits.split(' ') {
        bytes.extend_from_slice(&hex::decode(alloc, part)?)?;
    }
    let came = came_of(alloc, &bytes)?;
    Ok(if came.as_str() == wanted {
        None
    } else {
        Some(came)
    })
}

/// What comes of bytes: whether they are a parcel's, which has these bytes again, or where they are refused.
fn came_of(alloc: Global, bytes: &[u8]) -> Result<String, AllocError> {
    match ec_wire::read(alloc, bytes) {
        Ok(parcel) => {
            let again = ec_wire::write(alloc, &parcel)?;
            let is_same = again.as_slice() == bytes;
            String::from_str(alloc, if is_same { "parcel" } else { "other bytes" })
        }
        Err(ReadError::Wire(fault)) => format!(in alloc; "refused {}", fault.at),
        Err(ReadError::Memory) => Err(AllocError),
    }
}
