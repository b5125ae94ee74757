//! The report of a plain run.
ghost use Rattle.std.specs.Prelude.{◌≡◌, ◌++◌, [], IfOk, OnOk};
ghost use Rattle.ec_meaning.specs.ClassNames.{class_name};
ghost use Rattle.ec_meaning.specs.Sources.{source_of};
ghost use Rattle.ec_report.specs.ObjectLines.{PushesObject};
ghost use Rattle.ec_report.specs.Report.{lines_of_objects, report};
ghost use Rattle.ec_world.specs.Places.{places};
ghost use Rattle.ec_world.specs.Run.{statuses_of};

use ec_meaning::meaning::Meaning;
use ec_report::end::ReportEnd;
use ec_report::lines::{push_end, push_object_line, push_processes, push_turns};
use ec_world::node::NodeSpec;
use ec_world::places::place_of;
use ec_world::process::ProcStatus;
use ec_world::value::{NodeNo, Oid};
use std::alloc::{AllocError, Global};

/// The report of a run after so many entries, whose processes have these statuses, and which ended so; without lines of
/// nodes. The error is want of memory, or an object whose number has more than 32 bits.
pub(crate) fn report(
    alloc: Global,
    meaning: &Meaning<'_>,
    specs: &[NodeSpec],
    statuses: &[ProcStatus],
    turns: u64,
    end: ReportEnd,
) -> Result<Vec<u8>, AllocError>
    requires statuses { statuses.now ≡ statuses_of meaning.now.world }
    ensures { IfOk result
        (λ text. text.items ≡ report (class_name (source_of meaning.now.program)) meaning.now.world specs.now [] turns end) }
{
    let mut out = Vec::new(alloc);
    out.extend_from_slice(meaning.output().as_slice())?;
    out.push(b'\n')?;
    push_turns(alloc, turns, &mut out)?;
    push_processes(alloc, statuses, &mut out)?;
    push_objects(alloc, meaning, specs, &mut out)?;
    push_end(alloc, specs, end, &mut out)?;
    Ok(out)
}

/// The lines of all objects but those of the nodes, which come first. The error is want of memory, or an object whose
/// number has more than 32 bits.
fn push_objects(
    alloc: Global,
    meaning: &Meaning<'_>,
    specs: &[NodeSpec],
    out: &mut Vec<u8>,
) -> Result<(), AllocError>
    ensures { OnOk result
        (out.new.items ≡ out.old.items ++ lines_of_objects (class_name (source_of meaning.now.program)) meaning.now.world specs.now) }
{
    let placement = meaning.placement()?;
    let Some(mut oid) = meaning.world.common.nodes.checked_add(1) else {
        return Err(AllocError);
    };
    'objects: while push_object(alloc, meaning, specs, &placement, oid, out)? {
        let Some(next) = oid.checked_add(1) else {
            return Err(AllocError);
        };
        oid = next;
    }
    Ok(())
}

/// The line of the object of a number; whether there is one. The error is want of memory.
fn push_object(
    alloc: Global,
    meaning: &Meaning<'_>,
    specs: &[NodeSpec],
    placement: &[NodeNo],
    oid: Oid,
    out: &mut Vec<u8>,
) -> Result<bool, AllocError>
    requires { placement.now ≡ places meaning.now.world.common.nodes meaning.now.world.common.events }
    ensures { IfOk result
        (λ there. PushesObject (class_name (source_of meaning.now.program)) meaning.now.world specs.now oid out.old.items
        out.new.items there) }
{
    let Some(object) = meaning.world.common.object(oid) else {
        return Ok(false);
    };
    let mut class = Vec::new(alloc);
    meaning.program.push_class_name(object.class, &mut class)?;
    let place = place_of(placement, oid);
    push_object_line(alloc, specs, oid, &class, place, object.fixed, out)?;
    Ok(true)
}
