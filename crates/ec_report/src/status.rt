//! How the program ends.
ghost use Rattle.std.specs.Prelude.{◌≡◌};
ghost use Rattle.ec_report.specs.Status.{code_of, status_of};

use crate::end::ReportEnd;
use crate::processes::any_failed;
use ec_world::process::ProcStatus;
use ec_world::run::RunEnd;

/// The status with which the program ends.
#[derive(Clone, Copy, PartialEq, Eq, Debug)]
pub enum Status {
    /// 0: the run has finished and no process has failed, or the check has accepted the source.
    Finished,
    /// 1: the run has finished and some process has failed.
    SomeFailed,
    /// 2: the words name no command.
    Usage,
    /// 3: the source is refused.
    SourceRefused,
    /// 4: the nodes or the schedule are refused.
    InputRefused,
    /// 5: the budget is spent.
    Spent,
    /// 6: a node is full.
    Full,
    /// 7: no process can go on.
    Stuck,
    /// 8: a file wasn't read.
    ReadFault,
    /// 9: the text wasn't written whole.
    WriteFault,
    /// 10: there was no memory.
    NoMemory,
}

impl Status {
    /// The number with which the process ends.
    pub fn code(self) -> u8
        ensures { result ≡ code_of self }
    {
        match self {
            Status::Finished => 0,
            Status::SomeFailed => 1,
            Status::Usage => 2,
            Status::SourceRefused => 3,
            Status::InputRefused => 4,
            Status::Spent => 5,
            Status::Full => 6,
            Status::Stuck => 7,
            Status::ReadFault => 8,
            Status::WriteFault => 9,
            Status::NoMemory => 10,
        }
    }
}

/// The status of an end.
pub fn status_after(statuses: &[ProcStatus], end: ReportEnd) -> Status
    ensures { result ≡ status_of statuses.now end }
{
    match end {
        ReportEnd::Ends(RunEnd::Finished) => {
            if any_failed(statuses) {
                Status::SomeFailed
            } else {
                Status::Finished
            }
        }
        ReportEnd::Ends(RunEnd::Stuck) => Status::Stuck,
        ReportEnd::Ends(RunEnd::Spent) => Status::Spent,
        ReportEnd::IsFull { .. } => Status::Full,
    }
}
