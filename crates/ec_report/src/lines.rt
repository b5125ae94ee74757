//! The bytes of a report's lines. Each call writes its text behind what was written before.
ghost use Rattle.std.specs.Prelude.{◌≡◌, ℕ, List, Option, ◌++◌, slice_get, codes, OnOk};
ghost use Rattle.std.specs.Fmt.{decimal};
ghost use Rattle.ec_world.specs.declared.node.NodeSpec.{NodeSpec as ANodeSpec};
ghost use Rattle.ec_report.specs.declared.end.ReportEnd.TheVariants.{Ends, IsFull};
ghost use Rattle.ec_report.specs.Report.{cause_number, status_text, process_line, process_lines, name_if, node_at, fixed_text};
ghost use Rattle.ec_report.specs.Report.{object_line, kind_text, node_line, part_text, end_line, turns_line};

use crate::end::ReportEnd;
use ec_world::node::{Kind, NodeSpec};
use ec_world::process::{Cause, ProcStatus};
use ec_world::room::Part;
use ec_world::run::RunEnd;
use ec_world::value::{NodeNo, Oid};
use std::alloc::{AllocError, Global};

/// The digits of a number.
pub fn push_number(alloc: Global, number: u64, out: &mut Vec<u8>) -> Result<(), AllocError>
    ensures { OnOk result (out.new.items ≡ out.old.items ++ decimal number) }
{
    let number = number.to_string(alloc)?;
    out.extend_from_slice(number.as_str().as_bytes())?;
    Ok(())
}

/// `turns 7`
pub fn push_turns(alloc: Global, turns: u64, out: &mut Vec<u8>) -> Result<(), AllocError>
    ensures { OnOk result (out.new.items ≡ out.old.items ++ turns_line turns) }
{
    out.extend_from_slice(b"turns ")?;
    push_number(alloc, turns, out)?;
    out.push(b'\n')?;
    Ok(())
}

fn push_object_number(alloc: Global, oid: Oid, out: &mut Vec<u8>) -> Result<(), AllocError>
    ensures { OnOk result (out.new.items ≡ out.old.items ++ (codes "blocked on object " ++ decimal oid)) }
{
    out.extend_from_slice(b"blocked on object ")?;
    push_number(alloc, oid.into(), out)
}

/// The number of a cause of failure, from 1.
pub fn cause_number(cause: Cause) -> u8
    ensures { result ≡ cause_number cause }
{
    match cause {
        Cause::Nil => 1,
        Cause::ZeroDivisor => 2,
        Cause::FalseAssertion => 3,
        Cause::OutOfRange => 4,
        Cause::NotConforming => 5,
        Cause::GroupFixed => 6,
        Cause::VectorSize => 7,
        Cause::NoSuchNode => 8,
        Cause::LongText => 9,
        Cause::NodeFixed => 10,
    }
}

fn push_failure(alloc: Global, cause: Cause, line: u32, out: &mut Vec<u8>) -> Result<(), AllocError>
    ensures { OnOk result
        (out.new.items ≡ out.old.items ++ (codes "failed F" ++ decimal (cause_number cause) ++ codes " at line " ++ decimal line)) }
{
    out.extend_from_slice(b"failed F")?;
    push_number(alloc, cause_number(cause).into(), out)?;
    out.extend_from_slice(b" at line ")?;
    push_number(alloc, line.into(), out)
}

fn push_status(alloc: Global, status: ProcStatus, out: &mut Vec<u8>) -> Result<(), AllocError>
    ensures { OnOk result (out.new.items ≡ out.old.items ++ status_text status) }
{
    match status {
        ProcStatus::Ready => out.extend_from_slice(b"ready")?,
        ProcStatus::Entry(oid) => push_object_number(alloc, oid, out)?,
        ProcStatus::Cond(oid) => push_object_number(alloc, oid, out)?,
        ProcStatus::Urgent(oid) => push_object_number(alloc, oid, out)?,
        ProcStatus::Ended => out.extend_from_slice(b"ended")?,
        ProcStatus::Failed { cause, line } => push_failure(alloc, cause, line, out)?,
    }
    Ok(())
}

/// `process 1 ended`
pub(crate) fn push_process(
    alloc: Global,
    number: u64,
    status: ProcStatus,
    out: &mut Vec<u8>,
) -> Result<(), AllocError>
    ensures { OnOk result (out.new.items ≡ out.old.items ++ process_line number status) }
{
    out.extend_from_slice(b"process ")?;
    push_number(alloc, number, out)?;
    out.extend_from_slice(b" ")?;
    push_status(alloc, status, out)?;
    out.push(b'\n')?;
    Ok(())
}

/// The lines of all processes.
pub fn push_processes(
    alloc: Global,
    statuses: &[ProcStatus],
    out: &mut Vec<u8>,
) -> Result<(), AllocError>
    ensures { OnOk result (out.new.items ≡ out.old.items ++ process_lines 0 statuses.now) }
{
    for p in 0..statuses.len() {
        push_process(alloc, p as u64, statuses[p], out)?;
    }
    Ok(())
}

fn push_kind(kind: Kind, out: &mut Vec<u8>) -> Result<(), AllocError>
    ensures { OnOk result (out.new.items ≡ out.old.items ++ kind_text kind) }
{
    match kind {
        Kind::Riscv => out.extend_from_slice(b"riscv")?,
        Kind::Mips => out.extend_from_slice(b"mips")?,
    }
    Ok(())
}

/// `node west mips instructions 412`
pub fn push_node(
    alloc: Global,
    spec: &NodeSpec,
    count: u64,
    out: &mut Vec<u8>,
) -> Result<(), AllocError>
    ensures { OnOk result (out.new.items ≡ out.old.items ++ node_line spec.now count) }
{
    out.extend_from_slice(b"node ")?;
    out.extend_from_slice(spec.name.as_slice())?;
    out.extend_from_slice(b" ")?;
    push_kind(spec.kind, out)?;
    out.extend_from_slice(b" instructions ")?;
    push_number(alloc, count, out)?;
    out.push(b'\n')?;
    Ok(())
}

/// The name of a node, where there is one.
fn push_name(specs: &[NodeSpec], node: NodeNo, out: &mut Vec<u8>) -> Result<(), AllocError>
    ensures { OnOk result (out.new.items ≡ out.old.items ++ name_if (slice_get specs.now node)) }
{
    match specs.get(node as usize) {
        Some(spec) => out.extend_from_slice(spec.name.as_slice())?,
        None => {}
    }
    Ok(())
}

/// The name of the node at which an object is, where it is at one.
pub fn push_place(
    specs: &[NodeSpec],
    place: Option<NodeNo>,
    out: &mut Vec<u8>,
) -> Result<(), AllocError>
    ensures { OnOk result (out.new.items ≡ out.old.items ++ node_at specs.now place) }
{
    match place {
        Some(node) => push_name(specs, node, out),
        None => Ok(()),
    }
}

fn push_fixed(fixed: bool, out: &mut Vec<u8>) -> Result<(), AllocError>
    ensures { OnOk result (out.new.items ≡ out.old.items ++ fixed_text fixed) }
{
    if fixed {
        out.extend_from_slice(b" fixed")?;
    }
    Ok(())
}

fn push_part(part: Part, out: &mut Vec<u8>) -> Result<(), AllocError>
    ensures { OnOk result (out.new.items ≡ out.old.items ++ part_text part) }
{
    match part {
        Part::Blocks => out.extend_from_slice(b"blocks")?,
        Part::Text => out.extend_from_slice(b"text")?,
    }
    Ok(())
}

/// `stop full west text need 4 free 3`
fn push_full(
    alloc: Global,
    specs: &[NodeSpec],
    node: NodeNo,
    part: Part,
    need: u64,
    free: u64,
    out: &mut Vec<u8>,
) -> Result<(), AllocError>
    ensures { OnOk result (out.new.items ≡ out.old.items ++ end_line specs.now (IsFull node part need free)) }
{
    out.extend_from_slice(b"stop full ")?;
    push_name(specs, node, out)?;
    out.extend_from_slice(b" ")?;
    push_part(part, out)?;
    out.extend_from_slice(b" need ")?;
    push_number(alloc, need, out)?;
    out.extend_from_slice(b" free ")?;
    push_number(alloc, free, out)?;
    out.push(b'\n')?;
    Ok(())
}

/// `stop finished`
pub fn push_end(
    alloc: Global,
    specs: &[NodeSpec],
    end: ReportEnd,
    out: &mut Vec<u8>,
) -> Result<(), AllocError>
    ensures { OnOk result (out.new.items ≡ out.old.items ++ end_line specs.now end) }
{
    match end {
        ReportEnd::Ends(RunEnd::Finished) => out.extend_from_slice(b"stop finished\n")?,
        ReportEnd::Ends(RunEnd::Stuck) => out.extend_from_slice(b"stop stuck\n")?,
        ReportEnd::Ends(RunEnd::Spent) => out.extend_from_slice(b"stop budget\n")?,
        ReportEnd::IsFull {
            node,
            part,
            need,
            free,
        } => push_full(alloc, specs, node, part, need, free, out)?,
    }
    Ok(())
}

/// `object 7 Counter at west fixed`
pub fn push_object_line(
    alloc: Global,
    specs: &[NodeSpec],
    oid: Oid,
    class: &[u8],
    place: Option<NodeNo>,
    fixed: bool,
    out: &mut Vec<u8>,
) -> Result<(), AllocError>
    ensures { OnOk result (out.new.items ≡ out.old.items ++ object_line oid class.now (node_at specs.now place) fixed) }
{
    out.extend_from_slice(b"object ")?;
    push_number(alloc, oid.into(), out)?;
    out.extend_from_slice(b" ")?;
    out.extend_from_slice(class)?;
    push_where(specs, place, fixed, out)?;
    out.push(b'\n')?;
    Ok(())
}

/// ` at west fixed`
fn push_where(
    specs: &[NodeSpec],
    place: Option<NodeNo>,
    fixed: bool,
    out: &mut Vec<u8>,
) -> Result<(), AllocError>
    ensures { OnOk result (out.new.items ≡ out.old.items ++ (codes " at " ++ node_at specs.now place ++ fixed_text fixed)) }
{
    out.extend_from_slice(b" at ")?;
    push_place(specs, place, out)?;
    push_fixed(fixed, out)
}
