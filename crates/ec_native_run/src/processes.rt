//! What is read of a network's processes.
ghost use Rattle.std.specs.Prelude.{◌≡◌, IfOk, IsSome};
ghost use Rattle.ec_network.specs.Networks.{ForStanding};
ghost use Rattle.ec_world.specs.Run.{statuses_of};

use ec_network::nodes_running::network::Network;
use ec_world::process::ProcStatus;
use std::alloc::{AllocError, Global};

/// The statuses of the processes of a network. The error is want of memory, or a process whose number has more than 32 bits.
pub(crate) fn statuses_in(alloc: Global, net: &Network) -> Result<Vec<ProcStatus>, AllocError>
    requires whole { IsSome net.now }
    ensures { IfOk result (λ found. ForStanding net.now (λ d s w. found.items ≡ statuses_of w)) }
{
    let mut statuses = Vec::new(alloc);
    let mut p = 0u32;
    'processes: while let Some(status) = net.process(p) {
        statuses.push(status)?;
        let Some(next) = p.checked_add(1) else {
            return Err(AllocError);
        };
        p = next;
    }
    Ok(statuses)
}
