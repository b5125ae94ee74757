//! Files that were read, or texts that were made, are judged: the source, then the node file, then the schedule. What is taken comes to its
//! end.
ghost use Rattle.std.specs.Prelude.{IfOk};
ghost use Rattle.ec_tool.specs.Verdict.{Judged};
ghost use Rattle.ec_inputs.specs.Words.{CheckWords, CommandWords, Check as ACheck};
ghost use Rattle.ec_native_run.specs.Runs.{Net as ANet};
ghost use Rattle.ec_tool.specs.Reading.{held_in, only};
ghost use Rattle.ec_tool.specs.Taking.{AsksFor};

use crate::answers::{accepted, nodes_refused, schedule_refused, source_refused};
use crate::files::Files;
use crate::source::{SourceError, check_source};
use crate::take::{Work, come_to_end};
use ec_inputs::nodes::{NodesError, read_nodes};
use ec_inputs::schedule::{ScheduleError, read_schedule};
use ec_native_run::network::Network;
use ec_report::answer::Answer;
use std::alloc::{AllocError, Global};

/// Judges the files of a run or a plain meaning, or the texts of a trial, and goes on to its end within so many entries.
pub(crate) fn judge(
    alloc: Global,
    work: Work,
    budget: u32,
    files: &Files,
    net: &mut Network,
) -> Result<Answer, AllocError>
    ensures { IfOk result (λ answer. (asked : CommandWords) → AsksFor work budget asked →
        Judged asked (held_in files.now) net.old net.new answer.status answer.text.items) }
{
    let found = match check_source(alloc, &files.source) {
        Ok(found) => found,
        Err(SourceError::Refused(refused)) => return source_refused(alloc, &files.source, refused),
        Err(SourceError::Memory) => return Err(AllocError),
    };
    let specs = match read_nodes(alloc, &files.nodes) {
        Ok(specs) => specs,
        Err(NodesError::Refused(rule)) => return nodes_refused(alloc, rule),
        Err(NodesError::Memory) => return Err(AllocError),
    };
    match read_schedule(alloc, &files.schedule) {
        Ok(entries) => come_to_end(
            alloc,
            work,
            &found,
            &files.source,
            &specs,
            &entries,
            budget,
            net,
        ),
        Err(ScheduleError::Refused { rule, line }) => schedule_refused(alloc, rule, line),
        Err(ScheduleError::Memory) => Err(AllocError),
    }
}

/// Judges the source of a check.
pub(crate) fn judge_source(alloc: Global, source: &[u8]) -> Result<Answer, AllocError>
    ensures { IfOk result
        (λ answer. (check : CheckWords) (net : ANet) → Judged (ACheck check) (only source.now) net net answer.status answer.text.items) }
{
    match check_source(alloc, source) {
        Ok(_) => accepted(alloc),
        Err(SourceError::Refused(refused)) => source_refused(alloc, source, refused),
        Err(SourceError::Memory) => Err(AllocError),
    }
}
