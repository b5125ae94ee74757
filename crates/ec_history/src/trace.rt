//! What each entry of a run did, a line each.
use crate::history::{Actor, Deed, EntrySeen, History, LineSeen, Step};
use std::alloc::{AllocError, Global};

/// Writes what each entry of a run did, a line each, and a traceback of each process that failed.
pub fn write_trace(alloc: Global, history: &History, out: &mut String) -> Result<(), AllocError> {
    out.push_str(
        " entry  process   node              line  instructions  at the stop, and what it did\n",
    )?;
    for entry in &history.entries {
        write_entry(alloc, history, entry, out)?;
    }
    write!(out, "stop {}\n", history.end)?;
    out.push_str("(4+: the stop tells no line; its operation begins in line 4)\n")?;
    write_tracebacks(history, out)
}

/// One line: `    24  0         a                    6             8  main.sum: move object 4 to object 2: ..`
fn write_entry(
    alloc: Global,
    history: &History,
    entry: &EntrySeen,
    out: &mut String,
) -> Result<(), AllocError> {
    let who = match entry.actor {
        Actor::Process(p) => p.to_string(alloc)?,
        Actor::Operator => String::from_str(alloc, "operator")?,
    };
    let number = entry.number;
    write!(out, "{number:>6}  {who:<8}  ")?;
    let node = match &entry.stop {
        Some(stop) => history.node_name(stop.node),
        None => "-",
    };
    let line = line_text(alloc, entry)?;
    let instructions = entry.instructions;
    write!(out, "{node:<16}  {line:>4}  {instructions:>12}  ")?;
    if let Some(stop) = &entry.stop {
        out.push_str(stop.what.as_str())?;
    }
    write_deeds(history, entry, out)?;
    out.push('\n')
}

/// What an entry did, behind its stop.
fn write_deeds(history: &History, entry: &EntrySeen, out: &mut String) -> Result<(), AllocError> {
    for (place, deed) in entry.deeds.iter().enumerate() {
        out.push_str(if place == 0 && entry.stop.is_some() {
            ": "
        } else if place > 0 {
            ", "
        } else {
            ""
        })?;
        write_deed(history, deed, out)?;
    }
    Ok(())
}

/// The line of a stop; `6+` where the stop tells none but its operation begins in line 6.
fn line_text(alloc: Global, entry: &EntrySeen) -> Result<String, AllocError> {
    let Some(stop) = &entry.stop else {
        return String::from_str(alloc, "-");
    };
    match stop.line {
        LineSeen::At(line) => line.to_string(alloc),
        LineSeen::Within(line) => format!(in alloc; "{line}+"),
        LineSeen::Nowhere => String::from_str(alloc, "-"),
    }
}

/// One thing that an entry did, in words.
fn write_deed(history: &History, deed: &Deed, out: &mut String) -> Result<(), AllocError> {
    match deed {
        Deed::Idle => out.push_str("idle"),
        Deed::Made { object } => write_made(history, *object, out),
        Deed::Moved {
            steps,
            parcels,
            bytes,
        } => write_moved(history, steps, *parcels, *bytes, out),
        Deed::Printed(text) => write!(out, "printed {text}"),
        Deed::Blocked(what) => write!(out, "waits {what}"),
        Deed::Granted { process } => write!(out, "process {process} may go on"),
        Deed::Started { process } => write!(out, "process {process} starts"),
        Deed::Ended => out.push_str("the process ends"),
        Deed::Failed { why, line, .. } => write!(out, "FAILED in line {line}: {why}"),
    }
}

/// `made object 4 main at a`
fn write_made(history: &History, object: u32, out: &mut String) -> Result<(), AllocError> {
    let class = history.class_name(object);
    let node = match history.object(object) {
        Some(made) => history.node_name(made.node),
        None => "nowhere",
    };
    write!(out, "made object {object} {class} at {node}")
}

/// `moved object 4 main from a to b (1 parcel, 561 bytes)`
fn write_moved(
    history: &History,
    steps: &[Step],
    parcels: u32,
    bytes: u64,
    out: &mut String,
) -> Result<(), AllocError> {
    for (place, step) in steps.iter().enumerate() {
        out.push_str(if place == 0 { "moved " } else { ", " })?;
        let object = step.object;
        let class = history.class_name(object);
        let (from, to) = (history.node_name(step.from), history.node_name(step.to));
        write!(out, "object {object} {class} from {from} to {to}")?;
    }
    let noun = if parcels == 1 { "parcel" } else { "parcels" };
    write!(out, " ({parcels} {noun}, {bytes} bytes)")
}

/// The calls of each process that failed.
fn write_tracebacks(history: &History, out: &mut String) -> Result<(), AllocError> {
    for entry in &history.entries {
        write_traceback(history, entry, out)?;
    }
    Ok(())
}

/// The calls of the process that an entry made fail, the innermost first.
fn write_traceback(
    history: &History,
    entry: &EntrySeen,
    out: &mut String,
) -> Result<(), AllocError> {
    for deed in &entry.deeds {
        if let Deed::Failed { why, line, calls } = deed {
            write_failure(history, entry, why, *line, out)?;
            write_calls(calls, out)?;
        }
    }
    Ok(())
}

/// Calls, a line each.
fn write_calls(calls: &[String], out: &mut String) -> Result<(), AllocError> {
    for call in calls {
        write!(out, "  {call}\n")?;
    }
    Ok(())
}

/// `process 0 failed at entry 12 on a, line 9: a divisor is 0`
fn write_failure(
    history: &History,
    entry: &EntrySeen,
    why: &str,
    line: u32,
    out: &mut String,
) -> Result<(), AllocError> {
    let node = match &entry.stop {
        Some(stop) => history.node_name(stop.node),
        None => "nowhere",
    };
    let number = entry.number;
    match entry.actor {
        Actor::Process(p) => {
            write!(
                out,
                "\nprocess {p} failed at entry {number} on {node}, line {line}: {why}\n"
            )
        }
        Actor::Operator => Ok(()),
    }
}
