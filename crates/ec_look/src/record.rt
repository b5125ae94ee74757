//! The first history of a run, and how its end is told.
use ec_history::history::{History, NodeSeen};
use ec_listing::names::put_name;
use ec_report::end::ReportEnd;
use ec_world::node::{Kind, NodeSpec};
use ec_world::room::{Lack, Part};
use ec_world::run::RunEnd;
use std::alloc::{AllocError, Global};

/// A history of these nodes, in which nothing has happened.
pub fn first_history(alloc: Global, specs: &[NodeSpec]) -> Result<History, AllocError> {
    let mut nodes = Vec::new(alloc);
    for spec in specs {
        nodes.push(NodeSeen {
            name: name_text(alloc, spec.name.as_slice())?,
            kind: kind_text(spec.kind),
        })?;
    }
    Ok(History {
        nodes,
        objects: Vec::new(alloc),
        entries: Vec::new(alloc),
        end: String::new(alloc),
    })
}

/// The name of a node.
fn name_text(alloc: Global, name: &[u8]) -> Result<String, AllocError> {
    let mut text = String::new(alloc);
    put_name(name, &mut text)?;
    Ok(text)
}

fn kind_text(kind: Kind) -> &'static str {
    match kind {
        Kind::Riscv => "riscv",
        Kind::Mips => "mips",
    }
}

/// How a run ended, as a report tells it behind the word `stop`.
pub fn end_text(alloc: Global, specs: &[NodeSpec], end: ReportEnd) -> Result<String, AllocError> {
    match end {
        ReportEnd::Ends(RunEnd::Finished) => String::from_str(alloc, "finished"),
        ReportEnd::Ends(RunEnd::Stuck) => String::from_str(alloc, "stuck"),
        ReportEnd::Ends(RunEnd::Spent) => String::from_str(alloc, "budget"),
        ReportEnd::IsFull {
            node,
            part,
            need,
            free,
        } => full_text(
            alloc,
            specs,
            Lack {
                node,
                part,
                need,
                free,
            },
        ),
    }
}

/// `full a blocks need 2 free 1`
pub fn full_text(alloc: Global, specs: &[NodeSpec], lack: Lack) -> Result<String, AllocError> {
    let name = match specs.get(lack.node as usize) {
        Some(spec) => name_text(alloc, spec.name.as_slice())?,
        None => String::new(alloc),
    };
    let part = match lack.part {
        Part::Blocks => "blocks",
        Part::Text => "text",
    };
    let (need, free) = (lack.need, lack.free);
    format!(in alloc; "full {name} {part} need {need} free {free}")
}
