//! Where objects lie after events.
ghost use Rattle.std.specs.Prelude.{◌≡◌, IfOk, OnOk, slice_set};
ghost use Rattle.ec_world.specs.Places.{first_places, moved, node_or_first, place_in, placed, places};

use crate::event::Event;
use crate::value::{NodeNo, Oid, Oids};
use std::alloc::{AllocError, Global};

/// The node of each object, in the order of their numbers, on `n` nodes after these events. The error is want of memory.
pub fn placement_after(alloc: Global, n: u32, events: &[Event]) -> Result<Vec<NodeNo>, AllocError>
    ensures { IfOk result (λ v. v.items ≡ places n events.now) }
{
    let mut placement = first_placement(alloc, n)?;
    for event in events {
        place(&mut placement, event)?;
    }
    Ok(placement)
}

/// The node at which an object is, by these nodes of all objects, where it is there.
pub fn place_of(placement: &[NodeNo], oid: Oid) -> Option<NodeNo>
    ensures { result ≡ place_in placement.now oid }
{
    if oid == 0 {
        return None;
    }
    placement.get(oid as usize - 1).copied()
}

/// The nodes of the first objects: each node's own is there, and the program's is on node 0.
fn first_placement(alloc: Global, n: u32) -> Result<Vec<NodeNo>, AllocError>
    ensures { IfOk result (λ v. v.items ≡ first_places n) }
{
    let mut placement = Vec::new(alloc);
    for k in 0..n {
        placement.push(k)?;
    }
    placement.push(0)?;
    Ok(placement)
}

/// What an event changes.
fn place(placement: &mut Vec<NodeNo>, event: &Event) -> Result<(), AllocError>
    ensures { OnOk result (placement.new.items ≡ placed placement.old.items event.now) }
{
    match event {
        Event::Created { maker, .. } => {
            let k = node_at(placement, *maker);
            placement.push(k)?;
        }
        Event::Moved { members, target } => {
            let k = node_at(placement, *target);
            send(placement, members, k);
        }
    }
    Ok(())
}

/// The node at which an object is, where it is there; else the first one.
fn node_at(placement: &[NodeNo], oid: Oid) -> NodeNo
    ensures { result ≡ node_or_first (place_in placement.now oid) }
{
    match place_of(placement, oid) {
        Some(k) => k,
        None => 0,
    }
}

/// The members of a group go to a node.
fn send(placement: &mut Vec<NodeNo>, members: &Oids, k: NodeNo)
    ensures { placement.new.items ≡ moved placement.old.items members.now k }
{
    for member in members.as_slice() {
        put(placement, (*member as usize).saturating_sub(1), k);
    }
}

/// The node at a place, where there is one.
fn put(placement: &mut Vec<NodeNo>, at: usize, k: NodeNo)
    ensures { placement.new.items ≡ slice_set placement.old.items at k }
{
    if at < placement.len() {
        placement[at] = k;
    }
}
