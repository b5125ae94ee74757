//! The load of a program onto nodes.
ghost use Rattle.std.specs.Prelude.{◌≡◌, ◌≤◌, ◌^◌, ◌++◌, [], ◌∷◌, length, replicate, IfNone, IfOk, IfSome};
ghost use Rattle.ec_code.specs.Typing.{Declared};
ghost use Rattle.ec_cluster.specs.Located.{first_made, nodes_made};
ghost use Rattle.ec_acts.specs.Loaded.{AreImages, Loaded, WhenFull};
ghost use Rattle.ec_acts.specs.Loading.{CanLoad, HaveRoom, IsSet, LacksFirst, counted, first_needs};
ghost use Rattle.ec_acts.specs.Worlds.{with_objects, world_first};
ghost use Rattle.ec_world.specs.Words.{text_bytes};
ghost use Rattle.ec_cluster.specs.Systems.{Runs};
ghost use Rattle.ec_world.specs.Run as spec;

use crate::fresh::fresh_nodes;
use crate::objects::{begin_first, make_at};
use ec_base::list::Seq;
use ec_cluster::cluster::{Cluster, Images};
use ec_cluster::forward::whereabouts::Whereabouts;
use ec_cluster::system::{ProcessRow, System};
use ec_code::code::Parts;
use ec_world::class::ClassNo;
use ec_world::node::NodeSpec;
use ec_world::process::ProcStatus;
use ec_world::room::{Lack, Needs, lack_at};
use ec_world::value::{NodeNo, Oid, Text};
use std::alloc::{AllocError, Global};

/// Why a program was not loaded: a node lacks room, or there was no memory.
#[derive(Clone, Copy, Debug)]
pub enum LoadError {
    Full(Lack),
    Memory(AllocError),
}

/// How many blocks the first world has at node 0: one for the program's object and one for the activation on it.
const FIRST_BLOCKS: u64 = 2;

/// Loads a program with its images onto 1 to 64 nodes of these kinds and sizes (at most 65,536 blocks and 16,777,216 bytes of text), so
/// that process 0 is about to run operation 0. The error is what the first node that lacks room for that lacks, blocks before text; or
/// want of memory, which literals of 2^64 bytes or more are too.
pub fn load(
    alloc: Global,
    parts: Parts,
    images: Images,
    specs: &[NodeSpec],
) -> Result<System, LoadError>
    requires { CanLoad parts images specs.now }
    ensures loaded { IfOk result (Loaded parts images specs.now) }
    ensures runs { (d : Declared) → AreImages d parts images → IfOk result (λ s. Runs d s (world_first (length specs.now) parts)) }
    ensures full { WhenFull result (LacksFirst (first_needs parts images (length specs.now)) specs.now) }
{
    let Some(bytes) = bytes_in(&parts.literals) else {
        return Err(LoadError::Memory(AllocError));
    };
    if let Some(lack) = first_lack(specs, bytes) {
        return Err(LoadError::Full(lack));
    }
    match start(alloc, parts, images, specs) {
        Ok(system) => Ok(system),
        Err(error) => Err(LoadError::Memory(error)),
    }
}

/// How many bytes the texts have, where that is a number of 64 bits.
fn bytes_in(texts: &Seq<Text>) -> Option<u64>
    ensures some { IfSome result (λ bytes. bytes ≡ text_bytes texts.now) }
    ensures none { IfNone result (2 ^ 64 ≤ text_bytes texts.now) }
{
    let mut bytes: u64 = 0;
    for i in 0..texts.len() {
        bytes = bytes.checked_add(texts.at(i).len() as u64)?;
    }
    Some(bytes)
}

/// What is needed of a node, and what one of this size has, where the literals have so many bytes.
fn needs_of(node: NodeNo, spec: &NodeSpec, bytes: u64) -> Needs
    ensures { result ≡ counted bytes node spec.now }
{
    let blocks = if node == 0 { FIRST_BLOCKS } else { 0 };
    Needs {
        blocks,
        free_blocks: u64::from(spec.blocks),
        bytes,
        free_bytes: u64::from(spec.text),
    }
}

/// What the first node that lacks room lacks, where the literals have so many bytes.
fn first_lack(specs: &[NodeSpec], bytes: u64) -> Option<Lack>
    requires { length specs.now ≤ 64 }
    ensures some { IfSome result (LacksFirst (counted bytes) specs.now) }
    ensures none { IfNone result (HaveRoom (counted bytes) specs.now (length specs.now)) }
{
    for k in 0..specs.len() {
        let node = k as NodeNo;
        if let Some(lack) = lack_at(node, needs_of(node, &specs[k], bytes)) {
            return Some(lack);
        }
    }
    None
}

/// The system in which process 0 is about to run operation 0. The error is want of memory.
fn start(
    alloc: Global,
    parts: Parts,
    images: Images,
    specs: &[NodeSpec],
) -> Result<System, AllocError>
    requires can { CanLoad parts images specs.now }
    requires room { HaveRoom (first_needs parts images (length specs.now)) specs.now (length specs.now) }
    ensures { IfOk result (Loaded parts images specs.now) }
{
    let own = specs.len() as Oid + 1;
    let mut cluster = with_program(alloc, parts, images, specs)?;
    begin_first(&mut cluster, alloc, own)?;
    let mut processes = Seq::new(alloc);
    processes.push(ProcessRow {
        activations: 1,
        status: ProcStatus::Ready,
    })?;
    Ok(System {
        cluster,
        processes,
        output: Seq::new(alloc),
    })
}

/// Nodes with their objects, and with the program's at node 0. The error is want of memory.
fn with_program(
    alloc: Global,
    parts: Parts,
    images: Images,
    specs: &[NodeSpec],
) -> Result<Cluster, AllocError>
    requires can { CanLoad parts images specs.now }
    requires room { HaveRoom (first_needs parts images (length specs.now)) specs.now (length specs.now) }
    ensures { IfOk result (IsSet parts images specs.now
        (with_objects (length specs.now) parts (replicate (length specs.now) spec.node_object ++ spec.program_object ∷ []))
        (first_made (length specs.now))) }
{
    let own = specs.len() as Oid + 1;
    let mut cluster = with_nodes(alloc, parts, images, specs)?;
    make_at(&mut cluster, alloc, 0, own, ClassNo::Program, false)?;
    Ok(cluster)
}

/// Nodes with the literals, the defaults of the constants and their own objects. The error is want of memory.
fn with_nodes(
    alloc: Global,
    parts: Parts,
    images: Images,
    specs: &[NodeSpec],
) -> Result<Cluster, AllocError>
    requires can { CanLoad parts images specs.now }
    requires room { HaveRoom (first_needs parts images (length specs.now)) specs.now (length specs.now) }
    ensures { IfOk result (IsSet parts images specs.now
        (with_objects (length specs.now) parts (replicate (length specs.now) spec.node_object)) (nodes_made (length specs.now))) }
{
    let nodes = fresh_nodes(alloc, &parts, specs)?;
    let mut cluster = Cluster {
        parts,
        images,
        nodes,
        whereabouts: Whereabouts::new(alloc),
    };
    for k in 0..specs.len() {
        let node = k as NodeNo;
        make_at(&mut cluster, alloc, node, node + 1, ClassNo::Node, true)?;
    }
    Ok(cluster)
}
