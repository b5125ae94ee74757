//! The run of the program of an accepted text.
ghost use Rattle.std.specs.Prelude.{◌≡◌, ◌<◌, ◌-◌, ◌^◌, IfOk, IsSome, List, length};
ghost use Rattle.ec_compile.specs.Texts.{IsOfText};
ghost use Rattle.ec_report.specs.Progress.{at_start};
ghost use Rattle.ec_meaning.specs.Sources.{source_of};
ghost use Rattle.ec_native_run.specs.Following.{Follows, ForNodes, IsReported};
ghost use Rattle.ec_native_run.specs.Runs.{AreNodes, RunsTo, run_report};
ghost use Rattle.ec_network.specs.Nets.{counts_of};
ghost use Rattle.ec_network.specs.Networks.{ForStanding};
ghost use Rattle.ec_report.specs.Report as spec;
ghost use Rattle.ec_report.specs.Status.{status_of};
ghost use Rattle.ec_report.specs.declared.end.ReportEnd.TheVariants.{IsFull};
ghost use Rattle.ec_world.specs.Run.{statuses_of};
ghost use Rattle.ec_world.specs.declared.process.ProcStatus.{ProcStatus as AStatus};

use crate::driver::OnNodes;
use crate::processes::statuses_in;
use crate::report::{load_report, report};
use ec_acts::load::LoadError;
use ec_meaning::source::Program;
use ec_network::nodes_running::network::Network;
use ec_report::answer::Answer;
use ec_report::drive::{Ended, drive};
use ec_report::end::ReportEnd;
use ec_report::status::{Status, status_after};
use ec_runnable::prepare::prepare;
use ec_world::class::VectorType;
use ec_world::node::NodeSpec;
use ec_world::room::Lack;
use ec_world::run::Entry;
use std::alloc::{AllocError, Global};

/// Runs a program on 1 to 64 nodes of either kind along a schedule, for at most so many entries, and reports the end. `written` are the vector
/// types that are written in its text, which have their numbers in parcels in this order. What has run it is left in `net`. The error is want of memory, or a table of numbers of 32 bits that is full.
pub fn run(
    alloc: Global,
    program: &Program<'_>,
    written: &[VectorType],
    specs: &[NodeSpec],
    schedule: &[Entry],
    budget: u64,
    net: &mut Network,
) -> Result<Answer, AllocError>
    requires accepted { IsOfText (source_of program.now) }
    requires nodes { AreNodes specs.now }
    ensures { IfOk result
        (λ answer. RunsTo (source_of program.now) written.now specs.now schedule.now budget net.old net.new answer.status
        answer.text.items) }
{
    let made = prepare(alloc, program)?;
    match Network::load(alloc, made.parts, written, made.images, specs) {
        Ok(loaded) => {
            *net = loaded;
            run_loaded(alloc, program, specs, schedule, budget, net)
        }
        Err(LoadError::Full(lack)) => answer_full(alloc, specs, lack),
        Err(LoadError::Memory(e)) => Err(e),
    }
}

/// The answer where the load found no room.
fn answer_full(alloc: Global, specs: &[NodeSpec], lack: Lack) -> Result<Answer, AllocError>
    ensures status { IfOk result (λ answer. answer.status ≡ Status.Full) }
    ensures text { IfOk result
        (λ answer. answer.text.items ≡ spec.load_report specs.now (IsFull lack.node lack.part lack.need lack.free)) }
{
    let end = ReportEnd::IsFull {
        node: lack.node,
        part: lack.part,
        need: lack.need,
        free: lack.free,
    };
    let text = load_report(alloc, specs, end)?;
    Ok(Answer {
        status: Status::Full,
        text,
    })
}

/// Runs what was just loaded, and reports the end.
fn run_loaded(
    alloc: Global,
    program: &Program<'_>,
    specs: &[NodeSpec],
    schedule: &[Entry],
    budget: u64,
    net: &mut Network,
) -> Result<Answer, AllocError>
    requires loaded { (statuses : List AStatus)
        × Follows specs.now net.old schedule.now budget statuses (at_start schedule.now) net.old }
    ensures { IfOk result (λ answer.
        IsReported (source_of program.now) specs.now schedule.now budget net.old net.new answer.status answer.text.items) }
{
    let driver = OnNodes { alloc, specs };
    let ended = drive(&driver, net, schedule, budget)?;
    answer_end(alloc, program, specs, net, ended)
}

/// The status and the report of a run that has come to its end.
fn answer_end(
    alloc: Global,
    program: &Program<'_>,
    specs: &[NodeSpec],
    net: &Network,
    ended: Ended,
) -> Result<Answer, AllocError>
    requires whole { IsSome net.now }
    requires few { length specs.now < 2 ^ 32 - 1 }
    ensures status { IfOk result
        (λ answer. ForStanding net.now (λ d s w. answer.status ≡ status_of (statuses_of w) ended.end)) }
    ensures text { IfOk result (λ answer. ForNodes net.now specs.now (λ w.
        answer.text.items ≡ run_report (source_of program.now) w specs.now (counts_of net.now) ended.done ended.end)) }
{
    let statuses = statuses_in(alloc, net)?;
    let text = report(alloc, program, net, specs, &statuses, ended.done, ended.end)?;
    let status = status_after(&statuses, ended.end);
    Ok(Answer { status, text })
}
