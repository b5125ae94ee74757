//! A network of nodes: what its callers may ask of it.
ghost use Rattle.std.specs.Prelude.{◌≡◌};

use crate::nodes_running::seeing::seen;
use crate::nodes_running::turns::{Did, NetError};
use crate::nodes_running::{moving, turning};
use ec_acts::load as loading;
use ec_acts::load::LoadError;
use ec_cluster::cluster::Images;
use ec_cluster::system::System;
use ec_code::code::Parts;
use ec_generate::conditions::look_at_conditions;
use ec_legs::machines::Machines;
use ec_parcels::class_numbers::numbers::class_numbers;
use ec_parcels::mover::classes::ClassNumbers;
use ec_world::class::{ClassNo, VectorType};
use ec_world::node::NodeSpec;
use ec_world::process::ProcStatus;
use ec_world::sight::Sees;
use ec_world::value::{NodeNo, Oid, Pid, Text};
use std::alloc::{AllocError, Global};
use std::marker::Model;

/// Nodes that run a program: its actions by the kernel, and all code between stops on the nodes' own machines.
#[derive(Drop)]
pub struct Network {
    loaded: Option<Numbered>,
    machines: Machines,
}

/// A system, and the numbers of its program's classes on the wire.
#[derive(Drop)]
pub struct Numbered {
    pub system: System,
    pub numbers: ClassNumbers,
}

impl Model for Network {
    ghost use Rattle.ec_network.specs.Nets.{Net};
    ghost use Rattle.ec_network.specs.Networks.{IsLoaded};

    ghost Value = { Net };

    ghost view = { λ n. n.loaded };

    ghost invariant = { λ n. IsLoaded n.loaded };
}

impl Network {
    ghost use Rattle.std.specs.Prelude.{◌<◌, ◌≤◌, ◌-◌, ◌^◌, ◌↔◌, ℕ, suc, IfErr, IfOk, IsSome, IsTrue, None, Some, is_some, length};
    ghost use Rattle.ec_acts.specs.Loaded.{WhenFull};
    ghost use Rattle.ec_acts.specs.Loading.{LacksFirst, first_needs};
    ghost use Rattle.ec_network.specs.Networks.{CanRun, ForStanding, KeepsNumbers, NetLoaded, NetMoved, NetMoveRefused, NetRefused, Now};
    ghost use Rattle.ec_network.specs.Networks.{NetTurned};
    ghost use Rattle.ec_network.specs.Networks.{class_at, fixed_at, status_at};
    ghost use Rattle.ec_network.specs.Nets.{counts_of, system_of};
    ghost use Rattle.ec_network.specs.Places.{FixedStay, FixedStayUnlessRefixed, GoTogether, IsFoundFrom, NodesAreHome, moves_on, place_on};
    ghost use Rattle.ec_network.specs.Standing.{Stands, StandsInSome};
    ghost use Rattle.ec_rooms.specs.Places.{place_of};

    /// A network of no nodes, on which nothing was loaded. It meets its calls as a spent one does.
    pub fn empty() -> Network
        ensures { result ≡ None }
    {
        Network {
            loaded: None,
            machines: Machines::new(),
        }
    }

    /// Loads a program with its images onto 1 to 64 nodes of these kinds and sizes (at most 65,536 blocks and 16,777,216 bytes of text), so
    /// that process 0 is about to run operation 0. On the wire the vector types of the list have the first numbers behind the program's
    /// classes and object constructors, in the order of the list: it is that of the types that are written in the program's text. The error is what the first node that lacks room for that lacks, blocks before text; or
    /// want of memory, which literals of 2^64 bytes or more are too, and 2^32 - 1 classes and vector types or more.
    pub fn load(
        alloc: Global,
        parts: Parts,
        written: &[VectorType],
        images: Images,
        specs: &[NodeSpec],
    ) -> Result<Network, LoadError>
        requires { CanRun parts images specs.now }
        ensures loaded { IfOk result (λ net. NetLoaded parts written.now images specs.now net) }
        ensures moves { IfOk result (λ net. (x : ℕ) → moves_on net x ≡ 0) }
        ensures full { WhenFull result (LacksFirst (first_needs parts images (length specs.now)) specs.now) }
    {
        look_at_conditions(parts.classes.as_slice());
        let numbers = match class_numbers(alloc, &parts, written) {
            Ok(numbers) => numbers,
            Err(e) => return Err(LoadError::Memory(e)),
        };
        match loading::load(alloc, parts, images, specs) {
            Ok(system) => Ok(Network {
                loaded: Some(Numbered { system, numbers }),
                machines: Machines::new(),
            }),
            Err(e) => Err(e),
        }
    }

    /// Whether no turn has met want of memory. Then it stands in some world.
    pub fn is_whole(&self) -> bool
        ensures { result ≡ is_some self.now }
    {
        self.loaded.is_some()
    }

    /// A turn of a process: the action of the stop at which it rests, then machine code up to the next stop. Where a node lacks room, the
    /// least one that does is told, blocks before text, and nothing has changed. Want of memory spends the network, and a spent one answers
    /// nothing else.
    pub fn turn(&mut self, alloc: Global, p: Pid) -> Result<Did, NetError>
        requires few { (x : ℕ) → moves_on self.old x < 2 ^ 64 - 1 }
        ensures turned { IfOk result (λ did. IsSome self.old × NetTurned self.old self.new p did) }
        ensures fixed { IfOk result (λ did. FixedStayUnlessRefixed self.old self.new p) }
        ensures nodes { IfOk result (λ did. NodesAreHome self.new) }
        ensures moves { IfOk result (λ did. (x : ℕ) → moves_on self.new x ≤ suc (moves_on self.old x)) }
        ensures numbers { KeepsNumbers self.old self.new }
        ensures refused { IfErr result (λ e. NetRefused self.old self.new p e) }
    {
        let Some(loaded) = &mut self.loaded else {
            return Err(NetError::Memory(AllocError));
        };
        let Numbered { system, numbers } = loaded;
        match turning::turn(system, &mut self.machines, numbers, alloc, p) {
            Ok(did) => Ok(did),
            Err(NetError::Full(lack)) => Err(NetError::Full(lack)),
            Err(NetError::Memory(e)) => {
                self.loaded = None;
                Err(NetError::Memory(e))
            }
        }
    }

    /// A move of an object's group by the operator to where the object of a node is; or nothing, where the object or the node isn't there,
    /// or a member of the group is fixed. It is refused as a turn is.
    pub fn operator_move(&mut self, alloc: Global, o: Oid, k: NodeNo) -> Result<Did, NetError>
        requires few { (x : ℕ) → moves_on self.old x < 2 ^ 64 - 1 }
        ensures moved { IfOk result (λ did. IsSome self.old × NetMoved self.old self.new o k did) }
        ensures together { IfOk result (λ did. GoTogether self.old self.new o k did) }
        ensures fixed { IfOk result (λ did. FixedStay self.old self.new) }
        ensures nodes { IfOk result (λ did. NodesAreHome self.new) }
        ensures moves { IfOk result (λ did. (x : ℕ) → moves_on self.new x ≤ suc (moves_on self.old x)) }
        ensures numbers { KeepsNumbers self.old self.new }
        ensures refused { IfErr result (λ e. NetMoveRefused self.old self.new o k e) }
    {
        let Some(loaded) = &mut self.loaded else {
            return Err(NetError::Memory(AllocError));
        };
        let Numbered { system, numbers } = loaded;
        match moving::shift(system, numbers, alloc, o, k) {
            Ok(did) => Ok(did),
            Err(NetError::Full(lack)) => Err(NetError::Full(lack)),
            Err(NetError::Memory(e)) => {
                self.loaded = None;
                Err(NetError::Memory(e))
            }
        }
    }

    /// What has been printed.
    pub fn output(&self) -> &Text
        requires whole { IsSome self.now }
        ensures { ForStanding self.now (λ d s w. result.now ≡ w.common.output) }
    {
        &self.standing().output
    }

    /// What a process may do, where it is there.
    pub fn process(&self, p: Pid) -> Option<ProcStatus>
        requires whole { IsSome self.now }
        ensures { ForStanding self.now (λ d s w. result ≡ status_at w p) }
    {
        match self.standing().processes.get(p as usize) {
            Some(row) => Some(row.status),
            None => None,
        }
    }

    /// The class of an object, where it is there.
    pub fn class_of(&self, oid: Oid) -> Option<ClassNo>
        requires whole { IsSome self.now }
        ensures { ForStanding self.now (λ d s w. result ≡ class_at w oid) }
    {
        seen(self.standing()).class_of(oid)
    }

    /// Whether an object is fixed, where it is there.
    pub fn is_fixed(&self, oid: Oid) -> Option<bool>
        requires whole { IsSome self.now }
        ensures { ForStanding self.now (λ d s w. result ≡ fixed_at w oid) }
    {
        let seen = seen(self.standing());
        match seen.class_of(oid) {
            Some(_) => Some(seen.is_fixed(oid)),
            None => None,
        }
    }

    /// The node at which an object is, where it is there.
    pub fn place(&self, oid: Oid) -> Option<NodeNo>
        requires whole { IsSome self.now }
        ensures is { result ≡ place_on self.now oid }
        ensures placed { ForStanding self.now (λ d s w. result ≡ place_of w oid) }
    {
        self.standing().cluster.whereabouts.place(oid)
    }

    /// Whether each object can move once more, so that a turn or a move may be asked for. A spent network has none.
    pub fn can_move(&self) -> bool
        ensures { IsTrue result ↔ ((x : ℕ) → moves_on self.now x < 2 ^ 64 - 1) }
    {
        match &self.loaded {
            Some(loaded) => loaded.system.cluster.whereabouts.each_can_move(),
            None => true,
        }
    }

    /// The node where an object is, and how many hops it takes to find it from a node: how many addresses one follows behind the first,
    /// which is the node's own, or where it has none that of the node where the object was made. From then on it takes no hop from there;
    /// else the network shows what it showed. Want of memory spends the network, and a spent one answers nothing else.
    pub fn find(&mut self, from: NodeNo, oid: Oid) -> Result<(NodeNo, u64), NetError>
        requires made { IsSome (place_on self.old oid) }
        ensures found { IfOk result (λ answer. place_on self.old oid ≡ Some answer.0) }
        ensures hops { IfOk result (λ answer. IsFoundFrom self.old oid from answer.0 answer.1) }
        ensures few_hops { IfOk result (λ answer. answer.1 ≤ moves_on self.old oid) }
        ensures again { IfOk result (λ answer. IsFoundFrom self.new oid from answer.0 0) }
        ensures shows { IfOk result (λ answer. ForStanding self.old (λ d s w. Now self.new (λ t. Stands d t w))) }
        ensures places { IfOk result (λ answer. (x : ℕ) → place_on self.new x ≡ place_on self.old x) }
        ensures moves { IfOk result (λ answer. (x : ℕ) → moves_on self.new x ≡ moves_on self.old x) }
        ensures numbers { KeepsNumbers self.old self.new }
        ensures refused { IfErr result (λ e. self.new ≡ None) }
    {
        let Some(mut loaded) = self.loaded.take() else {
            return Err(NetError::Memory(AllocError));
        };
        match loaded.system.cluster.whereabouts.find(from, oid) {
            Ok(found) => {
                self.loaded = Some(loaded);
                Ok(found)
            }
            Err(e) => Err(NetError::Memory(e)),
        }
    }

    /// How many instructions a node has run, up to 2^64 - 1; 0 where it is not there, or the network is spent.
    pub fn counts(&self, k: NodeNo) -> u64
        ensures { result ≡ counts_of self.now k }
    {
        match &self.loaded {
            Some(loaded) => match loaded.system.cluster.nodes.get(k as usize) {
                Some(node) => node.count(),
                None => 0,
            },
            None => 0,
        }
    }

    /// The system of a network that is not spent.
    fn standing(&self) -> &System
        requires whole { IsSome self.now }
        ensures is { system_of self.now ≡ Some result.now }
        ensures stands { StandsInSome result.now }
    {
        match &self.loaded {
            Some(loaded) => &loaded.system,
            None => unreachable!(),
        }
    }
}
