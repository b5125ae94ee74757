//! Nodes as a reader sees them.
ghost use Rattle.std.specs.Prelude.{◌≡◌, ◌<◌, ◌≤◌, ◌↔◌, IfNone, IfSome, IsTrue, None};
ghost use Rattle.ec_cluster.specs.Cluster.{CodeWorld};
ghost use Rattle.ec_cluster.specs.Whereabouts.{made_count};
ghost use Rattle.ec_cluster.specs.Decoded.{decoded, seen_common};
ghost use Rattle.ec_cluster.specs.Seeing.{CanBeSeen, IsSeenAt, ShowsProgram};
ghost use Rattle.ec_stores.specs.Node.{store_of};
ghost use Rattle.ec_world.specs.Objects.{object_at};
ghost use Rattle.ec_world.specs.Sights.{sight_of};

use crate::cluster::Cluster;
use crate::seen::searching::members;
use ec_base::list::Seq;
use ec_objects::values::value_of;
use ec_stores::node::NodeStore;
use ec_stores::rows::Object;
use ec_world::class::{ClassNo, Classes};
use ec_world::sight::Sees;
use ec_world::value::{Oid, Oids, Value};
use std::alloc::{AllocError, Global};
use std::marker::Model;

/// Nodes each of whose objects is at its place, and can be read.
#[derive(Drop)]
pub struct Seen<'a> {
    cluster: &'a Cluster,
}

impl<'a> Model for Seen<'a> {
    ghost use Rattle.ec_cluster.specs.declared.cluster.Cluster.{Cluster as ACluster};

    ghost Value = { ACluster };

    ghost view = { λ s. s.cluster.now };

    ghost use Rattle.ec_cluster.specs.Seeing.{CanBeSeen as AllCanBeSeen};

    ghost invariant = { λ s. AllCanBeSeen s.cluster.now };
}

impl<'a> Seen<'a> {
    /// Nodes that can be seen. A reader sees the world that they show.
    pub fn of(cluster: &'a Cluster) -> Seen<'a>
        requires { CanBeSeen cluster.now }
        ensures is { result ≡ cluster.now }
        ensures sees { (w : CodeWorld) → ShowsProgram cluster.now w → sight_of (seen_common result) ≡ sight_of w.common }
    {
        Seen { cluster }
    }

    /// Whether there is an object of a number.
    pub(crate) fn has(&self, oid: Oid) -> bool
        ensures { IsTrue result ↔ ((0 < oid) × (oid ≤ made_count self.now.whereabouts)) }
    {
        self.cluster.whereabouts.place(oid).is_some()
    }

    /// An object, and the node where it is.
    pub(crate) fn object(&self, oid: Oid) -> Option<(&NodeStore, Object)>
        ensures some { IfSome result (λ found. IsSeenAt self.now oid (store_of found.0.now) found.1) }
        ensures none { IfNone result (object_at (decoded self.now) oid ≡ None) }
    {
        let place = self.cluster.whereabouts.place(oid)?;
        let node = self.cluster.nodes.at(place as usize);
        match node.object(oid) {
            Some(object) => Some((node, object)),
            None => unreachable!(),
        }
    }
}

impl<'a> Sees for Seen<'a> {
    ghost sight = { λ c. sight_of (seen_common c) };

    fn nodes(&self) -> u32 {
        self.cluster.nodes.len() as u32
    }

    fn classes(&self) -> &Classes {
        &self.cluster.parts.classes
    }

    fn constants(&self) -> usize {
        self.cluster.parts.constants.len()
    }

    fn class_of(&self, oid: Oid) -> Option<ClassNo> {
        let (_, object) = self.object(oid)?;
        Some(object.class)
    }

    fn size_of(&self, oid: Oid) -> Option<usize> {
        let Some((_node, object)) = self.object(oid) else {
            return None;
        };
        match object.class {
            ClassNo::Vector(_) => Some(object.size as usize),
            ClassNo::Node | ClassNo::Program | ClassNo::Made(_) => None,
        }
    }

    fn element(&self, _alloc: Global, oid: Oid, index: u32) -> Result<Option<Value>, AllocError> {
        let Some((node, object)) = self.object(oid) else {
            return Ok(None);
        };
        let ClassNo::Vector(of) = object.class else {
            return Ok(None);
        };
        if index >= object.size {
            return Ok(None);
        }
        let word = node.object_word(oid, index);
        Ok(Some(value_of(node, of.elements(), word)?))
    }

    fn is_fixed(&self, oid: Oid) -> bool {
        match self.object(oid) {
            Some((_, object)) => object.fixed,
            None => false,
        }
    }

    fn group(&self, alloc: Global, oid: Oid) -> Result<Oids, AllocError> {
        Ok(Seq::from_vec(members(self, alloc, oid)?))
    }
}
