//! What an entry did, read behind it: by the network where things are, by the meaning what became of processes and of the output.
use crate::before::{Before, top};
use crate::cargo::{node_at, place};
use crate::watching::{CodeRun, Watched, Watching};
use crate::words::{cause_text, put_quoted, wait_text};
use ec_history::history::{Actor, Deed, EntrySeen, History, ObjectSeen, Step};
use ec_listing::names::put_class;
use ec_network::nodes_running::network::Network;
use ec_network::nodes_running::turns::Did;
use ec_world::process::ProcStatus;
use ec_world::run::RunEntry;
use ec_world::value::{NodeNo, Oid, Pid};
use std::alloc::AllocError;
use std::mem::replace;

/// What an entry did, read behind it.
pub(crate) fn seen_behind(
    watching: &Watching<'_>,
    state: &Watched<'_>,
    entry: RunEntry,
    before: Before,
    did: Did,
    calls: Vec<String>,
) -> Result<EntrySeen, AllocError> {
    let (net, running) = (&state.net, &state.running);
    let Ok(done) = u32::try_from(state.history.entries.len()) else {
        return Err(AllocError);
    };
    let mut deeds = Vec::new(watching.alloc);
    add_made(watching, running, &before, &mut deeds)?;
    add_moved(watching, net, &before, &mut deeds)?;
    add_printed(watching, running, &before, &mut deeds)?;
    add_statuses(watching, running, entry, &before, calls, &mut deeds)?;
    if is_idle(&did) {
        deeds.push(Deed::Idle)?;
    }
    let instructions = instructions_of(&did);
    let ran_on = match entry {
        RunEntry::TurnOf(p) if instructions > 0 => node_of(net, running, p),
        _ => None,
    };
    Ok(EntrySeen {
        number: done.saturating_add(1),
        actor: actor_of(entry),
        stop: before.stop,
        deeds,
        instructions,
        ran_on,
    })
}

/// The objects that were made.
fn add_made(
    watching: &Watching<'_>,
    running: &CodeRun<'_>,
    before: &Before,
    deeds: &mut Vec<Deed>,
) -> Result<(), AllocError> {
    for place in before.objects..running.world.common.objects.len() {
        deeds.push(Deed::Made {
            object: number_behind(place)?,
        })?;
    }
    Ok(())
}

/// The objects that moved.
fn add_moved(
    watching: &Watching<'_>,
    net: &Network,
    before: &Before,
    deeds: &mut Vec<Deed>,
) -> Result<(), AllocError> {
    let Some(cargo) = &before.cargo else {
        return Ok(());
    };
    let mut steps = Vec::new(watching.alloc);
    for (object, from) in &cargo.members {
        let to = place(net, *object).unwrap_or(*from);
        if to != *from {
            steps.push(Step {
                object: *object,
                from: *from,
                to,
            })?;
        }
    }
    if !steps.is_empty() {
        let (parcels, bytes) = (cargo.parcels, cargo.bytes);
        deeds.push(Deed::Moved {
            steps,
            parcels,
            bytes,
        })?;
    }
    Ok(())
}

/// What was printed.
fn add_printed(
    watching: &Watching<'_>,
    running: &CodeRun<'_>,
    before: &Before,
    deeds: &mut Vec<Deed>,
) -> Result<(), AllocError> {
    let Some(new) = running.world.common.output.as_slice().get(before.printed..) else {
        return Ok(());
    };
    if !new.is_empty() {
        let mut text = String::new(watching.alloc);
        put_quoted(new, &mut text)?;
        deeds.push(Deed::Printed(text))?;
    }
    Ok(())
}

/// What became of processes.
fn add_statuses(
    watching: &Watching<'_>,
    running: &CodeRun<'_>,
    entry: RunEntry,
    before: &Before,
    calls: Vec<String>,
    deeds: &mut Vec<Deed>,
) -> Result<(), AllocError> {
    let mut calls = calls;
    for (number, process) in running.world.processes.as_slice().iter().enumerate() {
        let Ok(p) = u32::try_from(number) else {
            return Err(AllocError);
        };
        let was = before.statuses.get(number).copied();
        if let Some(deed) = change(watching, entry, p, was, process.status, &mut calls)? {
            deeds.push(deed)?;
        }
    }
    Ok(())
}

/// What became of one process, which was so before.
fn change(
    watching: &Watching<'_>,
    entry: RunEntry,
    p: Pid,
    was: Option<ProcStatus>,
    is: ProcStatus,
    calls: &mut Vec<String>,
) -> Result<Option<Deed>, AllocError> {
    if was.is_none() {
        return Ok(Some(Deed::Started { process: p }));
    }
    if was == Some(is) {
        return Ok(None);
    }
    if entry != RunEntry::TurnOf(p) {
        return Ok(match is {
            ProcStatus::Ready => Some(Deed::Granted { process: p }),
            _ => None,
        });
    }
    match is {
        ProcStatus::Ended => Ok(Some(Deed::Ended)),
        ProcStatus::Failed { cause, line } => Ok(Some(Deed::Failed {
            why: cause_text(cause),
            line,
            calls: replace(calls, Vec::new(watching.alloc)),
        })),
        _ => match wait_text(watching.alloc, is)? {
            Some(text) => Ok(Some(Deed::Blocked(text))),
            None => Ok(None),
        },
    }
}

/// Objects that the history doesn't have yet: made by its last entry, or by the load.
pub(crate) fn add_objects(
    watching: &Watching<'_>,
    net: &Network,
    running: &CodeRun<'_>,
    history: &mut History,
) -> Result<(), AllocError> {
    let Ok(made_by) = u32::try_from(history.entries.len()) else {
        return Err(AllocError);
    };
    let objects = running.world.common.objects.as_slice();
    for (place_in, object) in objects.iter().enumerate().skip(history.objects.len()) {
        let mut class = String::new(watching.alloc);
        put_class(watching.alloc, &watching.program, object.class, &mut class)?;
        history.objects.push(ObjectSeen {
            class,
            node: node_at(net, number_behind(place_in)?),
            made_by,
        })?;
    }
    Ok(())
}

/// Whether nothing was done.
fn is_idle(did: &Did) -> bool {
    matches!(did, Did::Idle)
}

/// How many instructions were run.
fn instructions_of(did: &Did) -> u64 {
    match did {
        Did::Acted { steps } => *steps,
        Did::Idle | Did::Moved => 0,
    }
}

/// The number of an object by its place, from 0.
fn number_behind(place: usize) -> Result<Oid, AllocError> {
    match u32::try_from(place) {
        Ok(place) => Ok(place.saturating_add(1)),
        Err(_) => Err(AllocError),
    }
}

/// The node on which a process now is.
fn node_of(net: &Network, running: &CodeRun<'_>, p: Pid) -> Option<NodeNo> {
    place(net, top(running, p)?.own)
}

fn actor_of(entry: RunEntry) -> Actor {
    match entry {
        RunEntry::TurnOf(p) => Actor::Process(p),
        RunEntry::MoveOf { .. } => Actor::Operator,
    }
}
