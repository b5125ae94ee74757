//! What the statuses of processes say.
ghost use Rattle.std.specs.Prelude.{◌≡◌};
ghost use Rattle.std.specs.List.{list_any};
ghost use Rattle.ec_world.specs.Run.{is_ready, is_over};
ghost use Rattle.ec_report.specs.Status.{has_failed};

use ec_world::process::ProcStatus;

/// Whether a process is Ready.
pub(crate) fn is_ready(status: ProcStatus) -> bool
    ensures { result ≡ is_ready status }
{
    match status {
        ProcStatus::Ready => true,
        ProcStatus::Entry(_)
        | ProcStatus::Cond(_)
        | ProcStatus::Urgent(_)
        | ProcStatus::Ended
        | ProcStatus::Failed { .. } => false,
    }
}

/// Whether a process has ended or failed.
pub(crate) fn is_over(status: ProcStatus) -> bool
    ensures { result ≡ is_over status }
{
    match status {
        ProcStatus::Ended | ProcStatus::Failed { .. } => true,
        ProcStatus::Ready | ProcStatus::Entry(_) | ProcStatus::Cond(_) | ProcStatus::Urgent(_) =>
            false,
    }
}

/// Whether a process has failed.
fn has_failed(status: ProcStatus) -> bool
    ensures { result ≡ has_failed status }
{
    match status {
        ProcStatus::Failed { .. } => true,
        ProcStatus::Ready
        | ProcStatus::Entry(_)
        | ProcStatus::Cond(_)
        | ProcStatus::Urgent(_)
        | ProcStatus::Ended => false,
    }
}

/// Whether some process has failed.
pub fn any_failed(statuses: &[ProcStatus]) -> bool
    ensures { result ≡ list_any has_failed statuses.now }
{
    statuses.iter().any(|status| has_failed(*status))
}
