//! The run: the entries of a schedule, and then turns of Ready processes, up to the end.
ghost use Rattle.std.specs.Prelude.{◌≡◌, ◌≤◌, ◌<◌, [], IfOk, length};
ghost use Rattle.ec_meaning.specs.Sources.{source_of};
ghost use Rattle.ec_plain.specs.Plain.{IsPlainRun};
ghost use Rattle.ec_meaning.specs.ClassNames.{class_name};
ghost use Rattle.ec_report.specs.Report.{report};
ghost use Rattle.ec_report.specs.Status.{status_of};
ghost use Rattle.ec_world.specs.Run.{statuses_of};

use crate::driver::{Plainly, statuses_in};
use crate::report::report;
use ec_meaning::meaning::Meaning;
use ec_meaning::source::Program;
use ec_report::answer::Answer;
use ec_report::drive::{Ended, drive};
use ec_report::status::status_after;
use ec_world::node::NodeSpec;
use ec_world::run::Entry;
use std::alloc::{AllocError, Global};

/// Runs a program on nodes (1 to 64) along a schedule, for at most so many entries, and tells the end. The error is want of
/// memory, or a table of numbers of 32 bits that is full.
pub fn run(
    alloc: Global,
    program: Program<'_>,
    specs: &[NodeSpec],
    schedule: &[Entry],
    budget: u64,
) -> Result<Answer, AllocError>
    requires some { 0 < length specs.now }
    requires at_most { length specs.now ≤ 64 }
    ensures { IfOk result (λ answer. IsPlainRun (source_of program.entry) specs.now schedule.now budget answer.status answer.text.items) }
{
    let mut meaning = Meaning::start(alloc, program, specs.len() as u32)?;
    let ended = drive(&Plainly, &mut meaning, schedule, budget)?;
    tell(alloc, &meaning, specs, ended)
}

/// The status and the report of a run that has ended. The error is want of memory, or an object whose number has more than
/// 32 bits.
fn tell(
    alloc: Global,
    meaning: &Meaning<'_>,
    specs: &[NodeSpec],
    ended: Ended,
) -> Result<Answer, AllocError>
    ensures status { IfOk result (λ answer. answer.status ≡ status_of (statuses_of meaning.now.world) ended.end) }
    ensures text { IfOk result
        (λ answer. answer.text.items ≡ report (class_name (source_of meaning.now.program)) meaning.now.world specs.now [] ended.done
        ended.end) }
{
    let statuses = statuses_in(alloc, meaning)?;
    let text = report(alloc, meaning, specs, &statuses, ended.done, ended.end)?;
    Ok(Answer {
        status: status_after(&statuses, ended.end),
        text,
    })
}
