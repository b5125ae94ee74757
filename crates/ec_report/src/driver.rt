//! What runs are driven on: a plain meaning, or a network.
ghost use Rattle.std.specs.Prelude.{◌≡◌, IfErr, List, OnOk, ℕ};
ghost use Rattle.ec_world.specs.declared.process.ProcStatus.{ProcStatus as AStatus};
ghost use Rattle.ec_world.specs.declared.run.Entry.{Entry};
ghost use Rattle.ec_world.specs.declared.room.Part.{Part as APart};
ghost use Rattle.ec_report.specs.Progress.{Progress};
ghost use Rattle.ec_report.specs.declared.driver.Refusal.TheVariants.{Memory};

use ec_world::process::ProcStatus;
use ec_world::room::Part;
use ec_world::run::RunEntry;
use ec_world::value::{NodeNo, Pid};
use std::alloc::AllocError;

/// Why an entry wasn't done.
#[derive(Clone, Copy, PartialEq, Eq, Debug)]
pub enum Refusal {
    /// A node has no room for what the entry needs there: blocks, or bytes of text.
    Full {
        node: NodeNo,
        part: Part,
        need: u64,
        free: u64,
    },
    /// There was no memory.
    Memory,
}

impl From<AllocError> for Refusal {
    ghost from_gives = { λ _ e. e ≡ Memory };

    fn from(_error: AllocError) -> Refusal {
        Refusal::Memory
    }
}

/// How entries are done on a state.
pub trait Driver<S> {
    ghost use Rattle.ec_report.specs.Driver.{IsDone, IsNext, IsOnWay, IsRefused, IsStatus};

    ghost Stands: { Self → S → List Entry → ℕ → List AStatus → Progress → S → Type 0 };

    ghost FindsFull: { Self → S → List Entry → ℕ → ℕ → APart → ℕ → ℕ → Type 0 };

    /// The status of a process; none exactly where there is no process of this number.
    fn status(&self, state: &S, p: Pid) -> Option<ProcStatus>
        requires { IsOnWay (Stands self.now) (FindsFull self.now) state.now }
        ensures { IsStatus (Stands self.now) (FindsFull self.now) state.now p result };

    /// Does the next entry.
    fn does(&self, state: &mut S, entry: RunEntry) -> Result<(), Refusal>
        requires { IsNext (Stands self.now) (FindsFull self.now) entry state.old }
        ensures done { OnOk result (IsDone (Stands self.now) (FindsFull self.now) entry state.old state.new) }
        ensures refused { IfErr result (IsRefused (Stands self.now) (FindsFull self.now) entry state.old state.new) };
}
