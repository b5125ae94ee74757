//! Which objects there are, with their numbers, so that a schedule can name them.
use crate::history::{Actor, Deed, EntrySeen, History, Step};
use std::alloc::AllocError;

/// Writes the objects that are there after loading, and for each entry those that it made or moved.
pub fn write_objects(history: &History, out: &mut String) -> Result<(), AllocError> {
    write_loaded(history, out)?;
    for entry in &history.entries {
        write_changes(history, entry, out)?;
    }
    out.push_str("An entry that isn't listed makes and moves no object.\n")
}

/// The objects that are there after loading.
fn write_loaded(history: &History, out: &mut String) -> Result<(), AllocError> {
    out.push_str("after loading\n")?;
    for (place, object) in history.objects.iter().enumerate() {
        if object.made_by == 0 {
            write_object(history, place.saturating_add(1), out)?;
        }
    }
    Ok(())
}

/// `  4 main at a`
fn write_object(history: &History, number: usize, out: &mut String) -> Result<(), AllocError> {
    let Ok(number) = u32::try_from(number) else {
        return Ok(());
    };
    let Some(object) = history.object(number) else {
        return Ok(());
    };
    let (class, node) = (object.class.as_str(), history.node_name(object.node));
    write!(out, "  {number} {class} at {node}\n")
}

/// What an entry changes: `after entry 3, a turn of process 0`, and a line for each object that it made or moved.
fn write_changes(history: &History, entry: &EntrySeen, out: &mut String) -> Result<(), AllocError> {
    if !entry.deeds.iter().any(is_change) {
        return Ok(());
    }
    let number = entry.number;
    match entry.actor {
        Actor::Process(p) => write!(out, "after entry {number}, a turn of process {p}\n")?,
        Actor::Operator => write!(out, "after entry {number}, a move by the operator\n")?,
    }
    for deed in &entry.deeds {
        match deed {
            Deed::Made { object } => write_object(history, *object as usize, out)?,
            Deed::Moved { steps, .. } => write_steps(history, steps, out)?,
            _ => {}
        }
    }
    Ok(())
}

/// Whether an object was made or moved.
fn is_change(deed: &Deed) -> bool {
    match deed {
        Deed::Made { .. } | Deed::Moved { .. } => true,
        _ => false,
    }
}

/// `  4 main from a to b`
fn write_steps(history: &History, steps: &[Step], out: &mut String) -> Result<(), AllocError> {
    for step in steps {
        let number = step.object;
        let class = history.class_name(number);
        let (from, to) = (history.node_name(step.from), history.node_name(step.to));
        write!(out, "  {number} {class} from {from} to {to}\n")?;
    }
    Ok(())
}
