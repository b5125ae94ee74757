//! A run is driven on a network.
ghost use Rattle.std.specs.Prelude.{◌≡◌};
ghost use Rattle.ec_native_run.specs.Following as spec;
ghost use Rattle.ec_native_run.specs.Following.{Follows, FullNext};

use ec_network::nodes_running::network::Network;
use ec_network::nodes_running::turns::NetError;
use ec_report::driver::{Driver, Refusal};
use ec_world::node::NodeSpec;
use ec_world::process::ProcStatus;
use ec_world::run::RunEntry;
use ec_world::value::Pid;
use std::alloc::Global;

/// The driver of runs on a network of these nodes.
#[derive(Drop)]
pub(crate) struct OnNodes<'a> {
    pub alloc: Global,
    pub specs: &'a [NodeSpec],
}

impl<'a> Driver<Network> for OnNodes<'a> {
    ghost Stands = { λ d. Follows d.specs.now };

    ghost FindsFull = { λ d. FullNext d.specs.now };

    fn status(&self, net: &Network, p: Pid) -> Option<ProcStatus> {
        net.process(p)
    }

    fn does(&self, net: &mut Network, entry: RunEntry) -> Result<(), Refusal> {
        match entry {
            RunEntry::TurnOf(p) => match net.turn(self.alloc, p) {
                Ok(_) => Ok(()),
                Err(e) => Err(refusal_of(e)),
            },
            RunEntry::MoveOf { o, k } => match net.operator_move(self.alloc, o, k) {
                Ok(_) => Ok(()),
                Err(e) => Err(refusal_of(e)),
            },
        }
    }
}

/// Why an entry wasn't done.
fn refusal_of(error: NetError) -> Refusal
    ensures { result ≡ spec.refusal_of error }
{
    match error {
        NetError::Full(lack) => Refusal::Full {
            node: lack.node,
            part: lack.part,
            need: lack.need,
            free: lack.free,
        },
        NetError::Memory(_) => Refusal::Memory,
    }
}
