//! A run is driven on a network, and beside it on the code's meaning, which tells stops and operands; what each entry did is kept.
ghost use Rattle.std.specs.Prelude.{◌≡◌};
ghost use Rattle.ec_world.specs.Run.{statuses_of};

use crate::before::{Before, calls_if_failed, read_before};
use crate::deeds::{add_objects, seen_behind};
use ec_code::activation::CodeActivation;
use ec_history::history::{EntrySeen, History};
use ec_meaning::source::Program;
use ec_network::nodes_running::network::Network;
use ec_network::nodes_running::turns::{Did, NetError};
use ec_report::driver::{Driver, Refusal};
use ec_stepping::code::Code;
use ec_world::process::ProcStatus;
use ec_world::run::RunEntry;
use ec_world::running::Running;
use ec_world::value::Pid;
use std::alloc::{AllocError, Global};

/// Code that is run step by step, and the world that it has made so far.
pub type CodeRun<'a> = Running<CodeActivation, Code<'a>>;

/// A network and the meaning of its code, both after the same entries, and what these did.
#[derive(Drop)]
pub struct Watched<'a> {
    pub net: Network,
    pub running: CodeRun<'a>,
    pub history: History,
}

/// The driver of a run that is watched, with its program in the source.
#[derive(Drop)]
pub struct Watching<'a> {
    pub alloc: Global,
    pub program: Program<'a>,
}

impl<'a, 'b> Driver<Watched<'b>> for Watching<'a> {
    ghost Stands = { λ _ start schedule budget statuses progress state. statuses ≡ statuses_of state.running.world };

    ghost FindsFull = { λ _ start schedule k node part need free. Unit {0} };

    fn status(&self, state: &Watched<'b>, p: Pid) -> Option<ProcStatus> {
        let process = state.running.world.processes.as_slice().get(p as usize)?;
        Some(process.status)
    }

    fn does(&self, state: &mut Watched<'b>, entry: RunEntry) -> Result<(), Refusal> {
        let before = read_before(self, &*state, entry)?;
        let did = match self.net_does(&mut state.net, entry) {
            Ok(did) => did,
            Err(NetError::Full(lack)) => {
                return Err(Refusal::Full {
                    node: lack.node,
                    part: lack.part,
                    need: lack.need,
                    free: lack.free,
                });
            }
            Err(NetError::Memory(_)) => return Err(Refusal::Memory),
        };
        self.keep_up(state, entry, before, did)?;
        self.add_new_objects(state)?;
        Ok(())
    }
}

/// The meaning does an entry.
fn go_on(running: &mut CodeRun<'_>, entry: RunEntry) -> Result<(), AllocError> {
    match entry {
        RunEntry::TurnOf(p) => running.turn(p),
        RunEntry::MoveOf { o, k } => running.operator_move(o, k),
    }
}

/// One more entry.
fn keep(history: &mut History, seen: EntrySeen) -> Result<(), AllocError> {
    history.entries.push(seen)?;
    Ok(())
}

impl<'a> Watching<'a> {
    /// The objects that the history doesn't have yet: made by its last entry, or by the load.
    pub fn add_new_objects(&self, state: &mut Watched<'_>) -> Result<(), AllocError> {
        add_objects(self, &state.net, &state.running, &mut state.history)
    }

    /// The meaning does what the network did, and what is seen of it is kept.
    fn keep_up(
        &self,
        state: &mut Watched<'_>,
        entry: RunEntry,
        before: Before,
        did: Did,
    ) -> Result<(), AllocError> {
        let calls = calls_if_failed(self, &*state, entry)?;
        go_on(&mut state.running, entry)?;
        let seen = seen_behind(self, &*state, entry, before, did, calls)?;
        keep(&mut state.history, seen)
    }

    /// An entry is done on the network. Want of memory is told too where an object has moved 2^64 - 1 times.
    fn net_does(&self, net: &mut Network, entry: RunEntry) -> Result<Did, NetError> {
        if !net.can_move() {
            return Err(NetError::Memory(AllocError));
        }
        match entry {
            RunEntry::TurnOf(p) => net.turn(self.alloc, p),
            RunEntry::MoveOf { o, k } => net.operator_move(self.alloc, o, k),
        }
    }
}
