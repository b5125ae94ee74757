//! A plain run is driven on a meaning.
ghost use Rattle.std.specs.Prelude.{◌≡◌, IfOk};
ghost use Rattle.ec_plain.specs.Coming.{MeaningComes, NeverFull};
ghost use Rattle.ec_world.specs.Run.{statuses_of};

use ec_meaning::meaning::Meaning;
use ec_report::driver::{Driver, Refusal};
use ec_world::process::ProcStatus;
use ec_world::run::RunEntry;
use ec_world::value::Pid;
use std::alloc::{AllocError, Global};

/// The driver of plain runs.
pub(crate) struct Plainly;

impl<'a> Driver<Meaning<'a>> for Plainly {
    ghost Stands = { λ _. MeaningComes };

    ghost FindsFull = { λ _. NeverFull };

    fn status(&self, m: &Meaning<'a>, p: Pid) -> Option<ProcStatus> {
        let process = m.world.processes.as_slice().get(p as usize)?;
        Some(process.status)
    }

    fn does(&self, m: &mut Meaning<'a>, entry: RunEntry) -> Result<(), Refusal> {
        match entry {
            RunEntry::TurnOf(p) => m.turn(p)?,
            RunEntry::MoveOf { o, k } => m.operator_move(o, k)?,
        }
        Ok(())
    }
}

/// What each process may do. The error is want of memory.
pub(crate) fn statuses_in(
    alloc: Global,
    meaning: &Meaning<'_>,
) -> Result<Vec<ProcStatus>, AllocError>
    ensures { IfOk result (λ statuses. statuses.items ≡ statuses_of meaning.now.world) }
{
    let mut statuses = Vec::new(alloc);
    let processes = meaning.world.processes.as_slice();
    for process in processes {
        statuses.push(process.status)?;
    }
    Ok(statuses)
}
