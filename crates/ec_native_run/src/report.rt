//! The bytes of a report: what a network shows at the end of a run.
ghost use Rattle.std.specs.Prelude.{◌≡◌, ◌++◌, ◌-◌, ◌<◌, ◌^◌, IfOk, IsSome, OnOk, length};
ghost use Rattle.ec_meaning.specs.ClassNames.{class_name};
ghost use Rattle.ec_meaning.specs.Sources.{source_of};
ghost use Rattle.ec_native_run.specs.Following.{ForNodes};
ghost use Rattle.ec_native_run.specs.Runs.{run_report};
ghost use Rattle.ec_network.specs.Nets.{counts_of};
ghost use Rattle.ec_network.specs.Networks.{ForStanding};
ghost use Rattle.ec_report.specs.ObjectLines.{PushesObject};
ghost use Rattle.ec_report.specs.Report as spec;
ghost use Rattle.ec_report.specs.Report.{lines_of_objects, node_lines};
ghost use Rattle.ec_world.specs.Run.{statuses_of};

use ec_meaning::source::Program;
use ec_network::nodes_running::network::Network;
use ec_report::end::ReportEnd;
use ec_report::lines::{push_end, push_node, push_object_line, push_processes, push_turns};
use ec_world::node::NodeSpec;
use ec_world::process::ProcStatus;
use ec_world::value::Oid;
use std::alloc::{AllocError, Global};

/// The lines of all nodes.
fn push_nodes(
    alloc: Global,
    net: &Network,
    specs: &[NodeSpec],
    out: &mut Vec<u8>,
) -> Result<(), AllocError>
    requires few { length specs.now < 2 ^ 32 }
    ensures { OnOk result (out.new.items ≡ out.old.items ++ node_lines (counts_of net.now) 0 specs.now) }
{
    for k in 0..specs.len() {
        push_node(alloc, &specs[k], net.counts(k as u32), out)?;
    }
    Ok(())
}

/// The line of the object of a number, whose class is named as in a program; whether there is one. The error is want of memory.
fn push_object(
    alloc: Global,
    program: &Program<'_>,
    net: &Network,
    specs: &[NodeSpec],
    oid: Oid,
    out: &mut Vec<u8>,
) -> Result<bool, AllocError>
    requires whole { IsSome net.now }
    ensures { IfOk result (λ there. ForNodes net.now specs.now (λ w.
        PushesObject (class_name (source_of program.now)) w specs.now oid out.old.items out.new.items there)) }
{
    let Some(class) = net.class_of(oid) else {
        return Ok(false);
    };
    let mut name = Vec::new(alloc);
    program.push_class_name(class, &mut name)?;
    let fixed = net.is_fixed(oid).unwrap_or(false);
    push_object_line(alloc, specs, oid, &name, net.place(oid), fixed, out)?;
    Ok(true)
}

/// The lines of all objects but those of the nodes, which come first. The error is want of memory, or an object whose number has more than
/// 32 bits.
fn push_objects(
    alloc: Global,
    program: &Program<'_>,
    net: &Network,
    specs: &[NodeSpec],
    out: &mut Vec<u8>,
) -> Result<(), AllocError>
    requires whole { IsSome net.now }
    requires few { length specs.now < 2 ^ 32 - 1 }
    ensures { OnOk result (ForNodes net.now specs.now (λ w.
        out.new.items ≡ out.old.items ++ lines_of_objects (class_name (source_of program.now)) w specs.now)) }
{
    let mut oid = specs.len() as u32 + 1;
    'objects: while push_object(alloc, program, net, specs, oid, out)? {
        let Some(next) = oid.checked_add(1) else {
            return Err(AllocError);
        };
        oid = next;
    }
    Ok(())
}

/// The report of what a network shows, whose processes have these statuses and whose classes are named as in a program. The error is that
/// of `push_objects`.
pub(crate) fn report(
    alloc: Global,
    program: &Program<'_>,
    net: &Network,
    specs: &[NodeSpec],
    statuses: &[ProcStatus],
    entries: u64,
    end: ReportEnd,
) -> Result<Vec<u8>, AllocError>
    requires whole { IsSome net.now }
    requires few { length specs.now < 2 ^ 32 - 1 }
    requires statuses { ForStanding net.now (λ d s w. statuses.now ≡ statuses_of w) }
    ensures { IfOk result (λ text. ForNodes net.now specs.now (λ w.
        text.items ≡ run_report (source_of program.now) w specs.now (counts_of net.now) entries end)) }
{
    let mut out = Vec::new(alloc);
    out.extend_from_slice(net.output().as_slice())?;
    out.push(b'\n')?;
    push_turns(alloc, entries, &mut out)?;
    push_processes(alloc, statuses, &mut out)?;
    push_objects(alloc, program, net, specs, &mut out)?;
    push_nodes(alloc, net, specs, &mut out)?;
    push_end(alloc, specs, end, &mut out)?;
    Ok(out)
}

/// The report where a load found no room: no node has run an instruction. The error is want of memory.
pub(crate) fn load_report(
    alloc: Global,
    specs: &[NodeSpec],
    end: ReportEnd,
) -> Result<Vec<u8>, AllocError>
    ensures { IfOk result (λ text. text.items ≡ spec.load_report specs.now end) }
{
    let mut out = Vec::new(alloc);
    out.push(b'\n')?;
    push_turns(alloc, 0, &mut out)?;
    push_idle_nodes(alloc, specs, &mut out)?;
    push_end(alloc, specs, end, &mut out)?;
    Ok(out)
}

/// The lines of nodes that have run nothing.
fn push_idle_nodes(alloc: Global, specs: &[NodeSpec], out: &mut Vec<u8>) -> Result<(), AllocError>
    ensures { OnOk result (out.new.items ≡ out.old.items ++ node_lines (λ k. 0) 0 specs.now) }
{
    for spec in specs {
        push_node(alloc, spec, 0, out)?;
    }
    Ok(())
}
