//! Native runs on a node's memory.
ghost use Rattle.std.specs.Prelude.{◌≡◌, ℕ, IfErr, IfOk, OnErr};
ghost use Rattle.ec_target.specs.Runs.{Halts, Leads, Native};
ghost use Rattle.ec_stores.specs.Changes.{Ran};
ghost use Rattle.ec_stores.specs.Memory.{SameMemory};
ghost use Rattle.ec_stores.specs.Node.{bytes_in, store_of};
ghost use Rattle.ec_stores.specs.Readable.{IsSmall, StandsIn};

use crate::node::NodeStore;
use ec_target::machine::Machine;
use ec_target::outcome::Trap;
use ec_world::node::Kind;

impl NodeStore {
    /// The kind of machines that run here: its words stand in its bytes as they read them.
    pub fn runs_on(&self) -> Kind
        ensures kind { result ≡ (store_of self.now).kind }
        ensures small { IsSmall (store_of self.now) }
        ensures words { StandsIn (store_of self.now) (bytes_in self.now) }
    {
        let _references = self.references.len();
        let _texts = self.pool.len();
        self.kind
    }

    /// Runs a machine on the node's memory to the next stop. Answers how many instructions come before it, by which the count of
    /// the node rises, up to 2^64 - 1. The error is a trap; the count stays then. Of the memory only bytes change, by the machine's own steps.
    pub fn run<M: Machine>(&mut self, machine: &mut M, code: &[u32]) -> Result<u64, Trap>
        requires { Halts (M.goes code.now) machine.old (bytes_in self.old) }
        ensures ok { IfOk result
            (λ k. Native (M.goes code.now) (M.stops code.now) machine.old (bytes_in self.old) k machine.new (bytes_in self.new)) }
        ensures ran { IfOk result (λ k. Ran (store_of self.old) (store_of self.new) k) }
        ensures trap { IfErr result
            (λ trap. (k : ℕ) × Leads (M.goes code.now) machine.old (bytes_in self.old) k machine.new (bytes_in self.new)
            × M.traps code.now machine.new (bytes_in self.new) trap) }
        ensures lists { SameMemory self.old.memory self.new.memory }
        ensures still { OnErr result (Ran (store_of self.old) (store_of self.new) 0) }
    {
        let steps = machine.run_to_stop(code, &mut self.memory)?;
        self.count = self.count.saturating_add(steps);
        Ok(steps)
    }
}
