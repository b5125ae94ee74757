//! What is read of a world.
ghost use Rattle.std.specs.Prelude.{◌≡◌, IfOk, map};
ghost use Rattle.ec_world.specs.Places.{places};
ghost use Rattle.ec_world.specs.Run.{statuses_of};

use crate::activation::Activation;
use crate::places::placement_after;
use crate::process::ProcStatus;
use crate::running::Running;
use crate::silent::Silent;
use crate::value::{NodeNo, Text};
use std::alloc::{AllocError, Global};

impl<A: Activation, S: Silent<A>> Running<A, S> {
    /// What has been printed.
    pub fn output(&self) -> &Text
        ensures { result.now ≡ self.now.world.common.output }
    {
        &self.world.common.output
    }

    /// What each process may do. The error is want of memory.
    pub fn statuses(&self, alloc: Global) -> Result<Vec<ProcStatus>, AllocError>
        ensures { IfOk result (λ found. found.items ≡ statuses_of self.now.world) }
    {
        let mut found = Vec::new(alloc);
        let processes = self.world.processes.as_slice();
        for process in processes {
            found.push(process.status)?;
        }
        Ok(found)
    }

    /// The node at which each object is, in the order of their numbers. The error is want of memory.
    pub fn placement(&self) -> Result<Vec<NodeNo>, AllocError>
        ensures { IfOk result (λ v. v.items ≡ places self.now.world.common.nodes self.now.world.common.events) }
    {
        let common = &self.world.common;
        let alloc = common.events.allocator();
        placement_after(alloc, common.nodes, common.events.as_slice())
    }
}
