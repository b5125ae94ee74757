//! The answers of a call that isn't run to an end: a status and a line for each.
ghost use Rattle.std.specs.Prelude.{IfOk};
ghost use Rattle.ec_tool.specs.Lines.{fault_line, usage_line};
ghost use Rattle.ec_report.specs.Says.{Says};
ghost use Rattle.ec_tool.specs.Refusals.{nodes_line, schedule_line};
ghost use Rattle.ec_tool.specs.Sources.{accepted_line, refused_line};

use crate::file::FileOf;
use crate::refusal::{nodes_text, schedule_text};
use crate::source::{Refused, refused_text};
use ec_inputs::nodes::NodeRule;
use ec_inputs::schedule::ScheduleRule;
use ec_report::answer::{Answer, answer_with};
use ec_report::status::Status;
use std::alloc::{AllocError, Global};

/// The words name no command.
pub fn usage(alloc: Global) -> Result<Answer, AllocError>
    ensures { IfOk result (λ answer. Says answer Status.Usage usage_line) }
{
    answer_with(
        alloc,
        Status::Usage,
        b"usage: emerald run SOURCE NODES SCHEDULE [--budget N] | check SOURCE | mean SOURCE NODES SCHEDULE [--budget N] | trial N\n",
    )
}

/// `read fault source`
pub fn read_fault(alloc: Global, file: FileOf) -> Result<Answer, AllocError>
    ensures { IfOk result (λ answer. Says answer Status.ReadFault (fault_line file)) }
{
    match file {
        FileOf::Source => answer_with(alloc, Status::ReadFault, b"read fault source\n"),
        FileOf::Nodes => answer_with(alloc, Status::ReadFault, b"read fault nodes\n"),
        FileOf::Schedule => answer_with(alloc, Status::ReadFault, b"read fault schedule\n"),
    }
}

/// `refused E3 at line 3 column 5`
pub fn source_refused(alloc: Global, source: &[u8], refused: Refused) -> Result<Answer, AllocError>
    ensures { IfOk result (λ answer. Says answer Status.SourceRefused (refused_line source.now refused.refusal refused.at)) }
{
    let status = Status::SourceRefused;
    let text = refused_text(alloc, source, refused)?;
    Ok(Answer { status, text })
}

/// `refused N3`
pub fn nodes_refused(alloc: Global, rule: NodeRule) -> Result<Answer, AllocError>
    ensures { IfOk result (λ answer. Says answer Status.InputRefused (nodes_line rule)) }
{
    let status = Status::InputRefused;
    let text = nodes_text(alloc, rule)?;
    Ok(Answer { status, text })
}

/// `refused S3 at line 2`
pub fn schedule_refused(
    alloc: Global,
    rule: ScheduleRule,
    line: Option<u32>,
) -> Result<Answer, AllocError>
    ensures { IfOk result (λ answer. Says answer Status.InputRefused (schedule_line rule line)) }
{
    let status = Status::InputRefused;
    let text = schedule_text(alloc, rule, line)?;
    Ok(Answer { status, text })
}

/// `accepted`
pub fn accepted(alloc: Global) -> Result<Answer, AllocError>
    ensures { IfOk result (λ answer. Says answer Status.Finished accepted_line) }
{
    answer_with(alloc, Status::Finished, b"accepted\n")
}
