//! The rows of processes, as an outcome changes them.
ghost use Rattle.std.specs.Prelude.{◌≡◌, ◌+◌, IfOk, List, length, slice_get, ℕ};
ghost use Rattle.ec_code.specs.Activations.{code_meaning};
ghost use Rattle.ec_code.specs.declared.activation.CodeActivation.{CodeActivation};
ghost use Rattle.ec_acts.specs.Rows.{row_readied, rows_readied};
ghost use Rattle.ec_cluster.specs.Systems.{row_of};
ghost use Rattle.ec_world.specs.Outcomes.{all_granted};
ghost use Rattle.ec_world.specs.World as spec;
ghost use Rattle.ec_world.specs.World.{changed};

use ec_base::list::Seq;
use ec_cluster::system::ProcessRow;
use ec_monitors::record::Granted;
use ec_world::process::ProcStatus;
use ec_world::stop::{Effect, Queue};
use ec_world::value::{Oid, Pid};
use std::alloc::AllocError;

/// The next number. The error is that it would have more than 32 bits.
pub(crate) fn next(number: u32) -> Result<u32, AllocError>
    ensures { IfOk result (λ above. above ≡ number + 1) }
{
    match number.checked_add(1) {
        Some(above) => Ok(above),
        None => Err(AllocError),
    }
}

/// A count as a number of 32 bits. The error is that it has more.
pub(crate) fn number_of(count: usize) -> Result<u32, AllocError>
    ensures { IfOk result (λ number. number ≡ count) }
{
    match u32::try_from(count) {
        Ok(number) => Ok(number),
        Err(_) => Err(AllocError),
    }
}

/// The row of a process once an effect has come to its activation on top, by the depth of this (from 0). The error is a depth of more
/// than 32 bits.
pub(crate) fn row_after(depth: u32, effect: &Effect) -> Result<ProcessRow, AllocError>
    ensures { IfOk result (λ row. (below : List CodeActivation) (top : CodeActivation) →
        depth ≡ length below → row ≡ row_of (changed code_meaning below top effect.now)) }
{
    match effect {
        Effect::GoesOn(_) => Ok(ProcessRow {
            activations: next(depth)?,
            status: ProcStatus::Ready,
        }),
        Effect::Calls { .. } => Ok(ProcessRow {
            activations: next(next(depth)?)?,
            status: ProcStatus::Ready,
        }),
        Effect::Leaves(_) => Ok(ProcessRow {
            activations: depth,
            status: ProcStatus::Ready,
        }),
        Effect::Blocks { queue, own } => Ok(ProcessRow {
            activations: next(depth)?,
            status: waiting(*queue, *own),
        }),
        Effect::Ends => Ok(ProcessRow {
            activations: 0,
            status: ProcStatus::Ended,
        }),
        Effect::Fails { cause, line } => Ok(ProcessRow {
            activations: 0,
            status: ProcStatus::Failed {
                cause: *cause,
                line: *line,
            },
        }),
    }
}

/// Where a process waits for the monitor of an object.
fn waiting(queue: Queue, oid: Oid) -> ProcStatus
    ensures { result ≡ spec.waiting queue oid }
{
    match queue {
        Queue::ForEntry => ProcStatus::Entry(oid),
        Queue::ForCondition => ProcStatus::Cond(oid),
        Queue::Urgently => ProcStatus::Urgent(oid),
    }
}

/// The process that was granted a monitor is Ready, if any.
pub(crate) fn ready_granted(rows: &mut Seq<ProcessRow>, granted: Option<Granted>)
    ensures { (more : List ℕ) → rows_readied rows.old (all_granted granted more) ≡ rows_readied rows.new more }
{
    match granted {
        Some(granted) => ready(rows, granted.process),
        None => {}
    }
}

/// These processes, which were granted a monitor, are Ready.
pub(crate) fn ready_each(rows: &mut Seq<ProcessRow>, granted: &[Pid])
    ensures { rows.new ≡ rows_readied rows.old granted.now }
{
    for q in granted {
        ready(rows, *q);
    }
}

/// A process is Ready, where it is there.
fn ready(rows: &mut Seq<ProcessRow>, q: Pid)
    ensures { rows.new ≡ row_readied rows.old q (slice_get rows.old q) }
{
    if (q as usize) < rows.len() {
        rows.at_mut(q as usize).status = ProcStatus::Ready;
    }
}
