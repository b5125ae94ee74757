//! What nodes know of one object.
ghost use Rattle.std.specs.Prelude.{◌≡◌, ◌≢◌, ◌<◌, ◌≤◌, ◌-◌, ◌^◌, ◌++◌, ◌∷◌, [], ℕ, suc, List, IfOk, OnOk, OnErr};
ghost use Rattle.ec_forwarding.specs.Addresses.{with_address};
ghost use Rattle.ec_forwarding.specs.Following.{AreNewer, IsFound};
ghost use Rattle.ec_forwarding.specs.Traces.{IsTraceOf, addresses_of, first_trace, newest_of, start_of};

use crate::address::{Address, Known};
use crate::known::{address_of, find, follow, note_both};
use ec_world::value::NodeNo;
use std::alloc::{AllocError, Global};
use std::marker::Model;

/// The node where one object was made, and the addresses that nodes have of it.
#[derive(Drop)]
pub(crate) struct Trail {
    made: NodeNo,
    known: Vec<Known>,
}

impl Model for Trail {
    ghost use Rattle.ec_forwarding.specs.Traces.{IsTrace, Trace};

    ghost Value = { Trace };

    ghost view = { λ t. record { made = t.made; known = t.known.items } };

    ghost invariant = { λ t. IsTrace (record { made = t.made; known = t.known.items }) };
}

impl Trail {
    /// That of an object which was just made at a node. The error is want of memory.
    pub fn new(alloc: Global, at: NodeNo) -> Result<Trail, AllocError>
        ensures trace { IfOk result (λ trail. trail ≡ first_trace at) }
        ensures newest { IfOk result (λ trail. newest_of trail ≡ record { node = at; moves = 0 }) }
    {
        let mut known = Vec::new(alloc);
        known.push(Known {
            at,
            address: Address { node: at, moves: 0 },
        })?;
        Ok(Trail { made: at, known })
    }

    /// The newest address, by following those of nodes from where the object was made.
    pub fn newest(&self) -> Address
        ensures { result ≡ newest_of self.now }
    {
        follow(&self.known, self.made).0
    }

    /// The object goes from the node where it is to another. The error is want of memory.
    pub fn go(&mut self, from: NodeNo, to: NodeNo) -> Result<(), AllocError>
        requires there { (newest_of self.old).node ≡ from }
        requires elsewhere { from ≢ to }
        requires few { (newest_of self.old).moves < 2 ^ 64 - 1 }
        ensures made { self.new.made ≡ self.old.made }
        ensures newest { OnOk result (newest_of self.new ≡ record { node = to; moves = suc (newest_of self.old).moves }) }
        ensures known { OnOk result ((k : ℕ) → addresses_of self.new k
            ≡ with_address (with_address (addresses_of self.old) to (newest_of self.new)) from (newest_of self.new) k) }
        ensures right { OnOk result ((history : List ℕ) → IsTraceOf history self.old → IsTraceOf (history ++ to ∷ []) self.new) }
        ensures err { OnErr result (self.new ≡ self.old) }
    {
        let last = address_of(&self.known, from);
        let newest = Address {
            node: to,
            moves: last.moves + 1,
        };
        note_both(&mut self.known, from, to, newest)
    }

    /// The node where the object is, and how many hops it takes to find it from a node. The nodes that are passed know the way from
    /// then on. The error is want of memory.
    pub fn find(&mut self, from: NodeNo) -> Result<(NodeNo, u64), AllocError>
        ensures made { self.new.made ≡ self.old.made }
        ensures newest { newest_of self.new ≡ newest_of self.old }
        ensures place { IfOk result (λ answer. answer.0 ≡ (newest_of self.old).node) }
        ensures found { IfOk result (λ answer.
            IsFound (addresses_of self.old) (start_of self.old from) (newest_of self.old).node answer.1) }
        ensures here { IfOk result (λ answer. from ≡ answer.0 → answer.1 ≡ 0) }
        ensures few { IfOk result (λ answer. answer.1 ≤ (newest_of self.old).moves) }
        ensures newer { IfOk result (λ answer.
            AreNewer (addresses_of self.old) (addresses_of self.new) from (start_of self.old from) answer.1 (newest_of self.old)) }
        ensures right { (history : List ℕ) → IsTraceOf history self.old → IsTraceOf history self.new }
        ensures err { OnErr result (self.new ≡ self.old) }
    {
        find(&mut self.known, self.made, from)
    }
}
