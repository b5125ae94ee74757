//! Compiles the sources of the cases that standard input holds for both kinds of machines, runs the loop of each as native code, and
//! tells how many instructions that took and whether the loop came out as the case says.
#![tactic(auto)]

mod cases;
mod compile;
mod error;
mod run;
mod stops;

use crate::cases::tell_all;
use crate::error::Fault;
use std::io;
use std::process::ExitCode;

fn main(rt: HostRuntime) -> ExitCode {
    match tell_input(&rt) {
        Ok(code) => ExitCode::from(code),
        Err(_) => ExitCode::from(2),
    }
}

/// Tells of the cases of standard input: 0 where all came out, 1 where one didn't, 2 where one can't be read or compiled.
fn tell_input(rt: &HostRuntime) -> Result<u8, Fault> {
    let text = io::read_to_string(rt.alloc(), rt.reader())?;
    match tell_all(rt, rt.alloc(), text.as_str()) {
        Ok(tally) => {
            println!(rt; "{} passed, {} failed", tally.passed, tally.failed)?;
            Ok(if tally.failed == 0 { 0 } else { 1 })
        }
        Err(fault) => {
            println!(rt; "{fault}")?;
            Ok(2)
        }
    }
}
