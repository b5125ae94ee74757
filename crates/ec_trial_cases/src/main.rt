//! Compares the texts of the trials 0 to 9 with those that lie beside this program.
#![tactic(auto)]

use ec_trial::trial::trial;
use std::process::ExitCode;
use std::rt::Files;
use std::{fs, io};

fn main(rt: HostRuntime) -> ExitCode {
    match compare_all(&rt) {
        Ok(0) => ExitCode::from(0),
        Ok(_) => ExitCode::from(1),
        Err(_) => ExitCode::from(2),
    }
}

/// Compares all trials, tells of each, and answers how many come out otherwise. An error is that of a file, of the output, or of
/// memory.
fn compare_all(rt: &(impl Files + Print + AllocGlobal)) -> io::Result<u32> {
    let mut failed = 0u32;
    for number in 0..10 {
        if compare(rt, number)? {
            println!(rt; "ok trial {number}")?;
        } else {
            println!(rt; "trial {number} comes out otherwise")?;
            failed = failed.saturating_add(1);
        }
    }
    Ok(failed)
}

/// Whether the texts of a trial are those in its three files.
fn compare(rt: &(impl Files + AllocGlobal), number: u32) -> io::Result<bool> {
    let texts = trial(rt.alloc(), number)?;
    let source = is_in(rt, "program", number, "em", texts.source.as_slice())?;
    let nodes = is_in(rt, "nodes", number, "toml", texts.nodes.as_slice())?;
    let schedule = is_in(rt, "schedule", number, "txt", texts.schedule.as_slice())?;
    Ok(source && nodes && schedule)
}

/// Whether a file holds a text.
fn is_in(
    rt: &(impl Files + AllocGlobal),
    front: &str,
    number: u32,
    end: &str,
    text: &[u8],
) -> io::Result<bool> {
    let name = format!(in rt.alloc(); "{front}_{number}.{end}")?;
    let held = fs::read_to_string(rt, name.as_str())?;
    Ok(held.as_str().as_bytes() == text)
}
