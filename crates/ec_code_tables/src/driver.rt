//! A run of code is driven on its world.
ghost use Rattle.std.specs.Prelude.{◌≡◌};
ghost use Rattle.ec_world.specs.Run.{statuses_of};

use ec_code::activation::CodeActivation;
use ec_report::driver::{Driver, Refusal};
use ec_stepping::code::Code;
use ec_world::process::ProcStatus;
use ec_world::run::RunEntry;
use ec_world::running::Running;
use ec_world::value::Pid;

/// Code that is run step by step, and the world that it has made so far.
pub type CodeRun<'a> = Running<CodeActivation, Code<'a>>;

/// The driver of runs of code. It promises statuses alone.
pub struct Stepwise;

impl<'a> Driver<Running<CodeActivation, Code<'a>>> for Stepwise {
    ghost Stands = { λ _ start schedule budget statuses progress state. statuses ≡ statuses_of state.world };

    ghost FindsFull = { λ _ start schedule k node part need free. ⊥ };

    fn status(&self, state: &CodeRun<'a>, p: Pid) -> Option<ProcStatus> {
        let process = state.world.processes.as_slice().get(p as usize)?;
        Some(process.status)
    }

    fn does(&self, state: &mut CodeRun<'a>, entry: RunEntry) -> Result<(), Refusal> {
        match entry {
            RunEntry::TurnOf(p) => state.turn(p)?,
            RunEntry::MoveOf { o, k } => state.operator_move(o, k)?,
        }
        Ok(())
    }
}
