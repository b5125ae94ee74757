//! What nodes know of the whereabouts of objects.
ghost use Rattle.std.specs.Prelude.{◌≡◌, ◌≢◌, ℕ, ◌-◌, ◌^◌, suc, ◌<◌, ◌≤◌, ◌↔◌, IfNone, IfOk, IfSome, IsSome, IsTrue, OnErr, OnOk, Some};
ghost use Rattle.ec_cluster.specs.Located.{Located, made_at, moved_to, nothing_made};
ghost use Rattle.ec_cluster.specs.Whereabouts.{FewMoves, Gives, address_on, addresses_at, known_of, made_count, moves_of, place_at};
ghost use Rattle.ec_cluster.specs.Whereabouts.{start_at};
ghost use Rattle.ec_forwarding.specs.Addresses.{with_address};
ghost use Rattle.ec_forwarding.specs.Following.{AreNewer, IsFound};

use ec_forwarding::forwarding::Forwarding;
use ec_world::value::{NodeNo, Oid};
use std::alloc::{AllocError, Global};
use std::marker::Model;

/// The addresses that nodes have of objects, which have the numbers from 1 on. Each address leads on to the object.
#[derive(Drop)]
pub struct Whereabouts {
    forwarding: Forwarding,
    made: Oid,
}

impl Model for Whereabouts {
    ghost use Rattle.ec_cluster.specs.Whereabouts.{AreNumbered, Traces, numbered};

    ghost Value = { Traces };

    ghost view = { λ w. numbered w.forwarding w.made };

    ghost invariant = { λ w. AreNumbered w.forwarding w.made };
}

impl Whereabouts {
    /// What is known before any object is made.
    pub fn new(alloc: Global) -> Whereabouts
        ensures { Gives result nothing_made }
    {
        Whereabouts {
            forwarding: Forwarding::new(alloc),
            made: 0,
        }
    }

    /// Notes that the next object was made at a node. The error is want of memory.
    pub fn note_made(&mut self, oid: Oid, at: NodeNo) -> Result<(), AllocError>
        requires next { oid ≡ suc (made_count self.old) }
        ensures ok { (w : Located) → Gives self.old w → OnOk result (Gives self.new (made_at w oid at)) }
        ensures err { OnErr result (self.new ≡ self.old) }
    {
        self.forwarding.note_made(oid, at)?;
        self.made = oid;
        Ok(())
    }

    /// Whether one more move of an object can be counted: it has moved fewer than 2^64 - 1 times.
    pub fn can_move(&self, oid: Oid) -> bool
        ensures { IsTrue result ↔ (moves_of self.now oid < 2 ^ 64 - 1) }
    {
        self.forwarding.moves(oid).unwrap_or(0) < u64::MAX
    }

    /// Whether each object can move once more.
    pub fn each_can_move(&self) -> bool
        ensures { IsTrue result ↔ FewMoves self.now }
    {
        for i in 0..self.made {
            if !self.can_move(i + 1) {
                return false;
            }
        }
        true
    }

    /// Notes that an object went from the node where it was to another, or to the same, which changes nothing. Both nodes have the
    /// newest address then. The error is want of memory.
    pub fn note_move(&mut self, oid: Oid, from: NodeNo, to: NodeNo) -> Result<(), AllocError>
        requires there { place_at self.old oid ≡ Some from }
        requires few { moves_of self.old oid < 2 ^ 64 - 1 }
        ensures ok { (w : Located) → Gives self.old w → OnOk result (Gives self.new (moved_to w oid from to)) }
        ensures stays { OnOk result (from ≡ to → self.new ≡ self.old) }
        ensures addresses { let newest = address_on self.old oid to in OnOk result (from ≢ to → (k : ℕ) →
            addresses_at self.new oid k ≡ with_address (with_address (addresses_at self.old oid) to newest) from newest k) }
        ensures others { (o : ℕ) → o ≢ oid → known_of self.new o ≡ known_of self.old o }
        ensures err { OnErr result (self.new ≡ self.old) }
    {
        self.forwarding.note_move(oid, from, to)
    }

    /// The node where an object is, and how many hops it takes to find it from a node: how many addresses one follows behind the
    /// first, which is the node's own, or where it has none that of the node where the object was made. The node and those that are
    /// passed have the newest address from then on, so that it takes no hop from there. The error is want of memory.
    pub fn find(&mut self, from: NodeNo, oid: Oid) -> Result<(NodeNo, u64), AllocError>
        requires made { IsSome (place_at self.old oid) }
        ensures found { IfOk result (λ answer. place_at self.old oid ≡ Some answer.0) }
        ensures hops { IfOk result (λ answer. IsFound (addresses_at self.old oid) (start_at self.old oid from) answer.0 answer.1) }
        ensures here { IfOk result (λ answer. from ≡ answer.0 → answer.1 ≡ 0) }
        ensures few_hops { (w : Located) → Gives self.old w → IfOk result (λ answer. answer.1 ≤ w.moves oid) }
        ensures newer { IfOk result (λ answer. AreNewer (addresses_at self.old oid) (addresses_at self.new oid) from
            (start_at self.old oid from) answer.1 (record { node = answer.0; moves = moves_of self.old oid })) }
        ensures again { IfOk result (λ answer. IsFound (addresses_at self.new oid) (start_at self.new oid from) answer.0 0) }
        ensures others { (o : ℕ) → o ≢ oid → known_of self.new o ≡ known_of self.old o }
        ensures kept { (w : Located) → Gives self.old w → Gives self.new w }
        ensures err { OnErr result (self.new ≡ self.old) }
    {
        self.forwarding.find(from, oid)
    }

    /// The node where an object is; none exactly where no object of this number was noted.
    pub fn place(&self, oid: Oid) -> Option<NodeNo>
        ensures at { result ≡ place_at self.now oid }
        ensures made { IsSome result ↔ ((0 < oid) × (oid ≤ made_count self.now)) }
    {
        self.forwarding.place(oid)
    }

    /// The number of the next object; none where 2^32 - 1 were noted.
    pub fn next_number(&self) -> Option<Oid>
        ensures some { IfSome result (λ oid. oid ≡ suc (made_count self.now)) }
        ensures none { IfNone result (2 ^ 32 - 1 ≤ made_count self.now) }
    {
        self.made.checked_add(1)
    }
}
