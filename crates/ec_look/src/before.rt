//! What is read before an entry: the stop at which its process rests, what a move would carry, and the calls of a process.
use crate::cargo::{Cargo, asked_move, carried_by, node_at};
use crate::watching::{CodeRun, Watched, Watching};
use crate::words::put_operands;
use ec_code::activation::CodeActivation;
use ec_history::history::{LineSeen, StopSeen};
use ec_listing::names::{operation_of, put_operation};
use ec_listing::stops::{line_of, put_stop};
use ec_network::nodes_running::network::Network;
use ec_world::process::ProcStatus;
use ec_world::run::RunEntry;
use ec_world::stop::Stop;
use ec_world::value::Pid;
use std::alloc::AllocError;

/// What is known before an entry: its stop, what a move would carry, what processes may do, and how much there is of output and objects.
#[derive(Drop)]
pub(crate) struct Before {
    pub stop: Option<StopSeen>,
    pub cargo: Option<Cargo>,
    pub statuses: Vec<ProcStatus>,
    pub printed: usize,
    pub objects: usize,
}

/// What is known before an entry.
pub(crate) fn read_before(
    watching: &Watching<'_>,
    state: &Watched<'_>,
    entry: RunEntry,
) -> Result<Before, AllocError> {
    let (net, running) = (&state.net, &state.running);
    let mut statuses = Vec::new(watching.alloc);
    for process in running.world.processes.as_slice() {
        statuses.push(process.status)?;
    }
    Ok(Before {
        stop: stop_before(watching, net, running, entry)?,
        cargo: cargo_before(watching, net, running, entry)?,
        statuses,
        printed: running.world.common.output.len(),
        objects: running.world.common.objects.len(),
    })
}

/// The stop at which the process of a turn rests, where it can go on.
fn stop_before(
    watching: &Watching<'_>,
    net: &Network,
    running: &CodeRun<'_>,
    entry: RunEntry,
) -> Result<Option<StopSeen>, AllocError> {
    let RunEntry::TurnOf(p) = entry else {
        return Ok(None);
    };
    if status_of(net, p) != Some(ProcStatus::Ready) {
        return Ok(None);
    }
    match top(running, p) {
        Some(activation) => Ok(Some(stop_of(watching, net, activation)?)),
        None => Ok(None),
    }
}

/// The stop at which an activation rests.
fn stop_of(
    watching: &Watching<'_>,
    net: &Network,
    activation: &CodeActivation,
) -> Result<StopSeen, AllocError> {
    let mut what = String::new(watching.alloc);
    let number = activation.operation as usize;
    put_operation(&watching.program, number, &mut what)?;
    what.push_str(": ")?;
    if activation.pending {
        put_stop(
            watching.alloc,
            &watching.program,
            activation.stop,
            &mut what,
        )?;
        put_operands(activation.operands.as_slice(), &mut what)?;
    } else {
        what.push_str("go on")?;
    }
    Ok(StopSeen {
        node: node_at(net, activation.own),
        line: line_seen(watching, activation),
        what,
    })
}

/// The line that the stop of an activation tells; an entry is where its operation begins.
fn line_seen(watching: &Watching<'_>, activation: &CodeActivation) -> LineSeen {
    if let Some(line) = line_of(activation.stop) {
        return LineSeen::At(line);
    }
    let number = activation.operation as usize;
    let Some(operation) = operation_of(&watching.program, number) else {
        return LineSeen::Nowhere;
    };
    let first = watching.program.line(operation.at);
    match activation.stop {
        Stop::Entry => LineSeen::At(first),
        _ => LineSeen::Within(first),
    }
}

/// What an entry would carry, if it is a move.
fn cargo_before(
    watching: &Watching<'_>,
    net: &Network,
    running: &CodeRun<'_>,
    entry: RunEntry,
) -> Result<Option<Cargo>, AllocError> {
    let asked = match entry {
        RunEntry::MoveOf { o, k } => Some((o, k)),
        RunEntry::TurnOf(p) => match top(running, p) {
            Some(activation) => { asked_move(net, activation.stop, activation.operands.as_slice()) }
            None => None,
        },
    };
    match asked {
        Some((oid, target)) => { Ok(Some(carried_by(watching.alloc, net, running, oid, target)?)) }
        None => Ok(None),
    }
}

/// The calls of a process that an entry has made fail on the network, while the meaning still has them; the innermost first.
pub(crate) fn calls_if_failed(
    watching: &Watching<'_>,
    state: &Watched<'_>,
    entry: RunEntry,
) -> Result<Vec<String>, AllocError> {
    let mut calls = Vec::new(watching.alloc);
    let RunEntry::TurnOf(p) = entry else {
        return Ok(calls);
    };
    let Some(process) = state.running.world.processes.as_slice().get(p as usize) else {
        return Ok(calls);
    };
    if !has_failed(&state.net, p) {
        return Ok(calls);
    }
    for activation in process.activations.as_slice().iter().rev() {
        calls.push(call_text(watching, state, activation)?)?;
    }
    Ok(calls)
}

/// `line 6 in main.sum on object 4 at a`
fn call_text(
    watching: &Watching<'_>,
    state: &Watched<'_>,
    activation: &CodeActivation,
) -> Result<String, AllocError> {
    let mut text = String::new(watching.alloc);
    match line_seen(watching, activation) {
        LineSeen::At(line) => write!(text, "line {line} in ")?,
        LineSeen::Within(line) => write!(text, "line {line} or below, in ")?,
        LineSeen::Nowhere => text.push_str("in ")?,
    }
    let number = activation.operation as usize;
    put_operation(&watching.program, number, &mut text)?;
    let own = activation.own;
    let node = state.history.node_name(node_at(&state.net, own));
    write!(text, " on object {own} at {node}")?;
    Ok(text)
}

/// What a process may do, where it is there.
fn status_of(net: &Network, p: Pid) -> Option<ProcStatus> {
    if net.is_whole() { net.process(p) } else { None }
}

/// Whether a process has failed on the network.
fn has_failed(net: &Network, p: Pid) -> bool {
    matches!(status_of(net, p), Some(ProcStatus::Failed { .. }))
}

/// The last activation of a process.
pub(crate) fn top<'r>(running: &'r CodeRun<'_>, p: Pid) -> Option<&'r CodeActivation> {
    let process = running.world.processes.as_slice().get(p as usize)?;
    process.activations.as_slice().last()
}
