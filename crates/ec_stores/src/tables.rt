//! Local references and texts.
ghost use Rattle.std.specs.Prelude.{◌≡◌, ◌≤◌, ◌↔◌, length, IfOk, IsSome, IsTrue, Some};
ghost use Rattle.ec_things.specs.Texts.{InPool};
ghost use Rattle.ec_stores.specs.Node.{store_of};
ghost use Rattle.ec_stores.specs.Changes.{Interns, Refers};

use crate::node::NodeStore;
use ec_world::value::{Oid, Text};
use std::alloc::AllocError;

impl NodeStore {
    /// The node's own reference to an object, found or made. The error is want of memory, or that there are 2^32 - 1 references.
    pub fn local_of(&mut self, oid: Oid) -> Result<u32, AllocError>
        ensures { IfOk result (λ word. Refers (store_of self.old) (store_of self.new) oid word) }
    {
        match self.references.find(oid) {
            Some(word) => Ok(word),
            None => {
                let word = self.references.add(oid)?;
                Ok(word)
            }
        }
    }

    /// The object that a reference of this node names.
    pub fn oid_of(&self, local: u32) -> Oid
        requires { IsSome ((store_of self.now).local local) }
        ensures { (store_of self.now).local local ≡ Some result }
    {
        self.references.at(local)
    }

    /// The place of a text among the node's, found or made. The error is want of memory, or that there are 2^32 texts.
    pub fn intern(&mut self, text: Text) -> Result<u32, AllocError>
        requires room { (InPool (store_of self.old) text → ⊥) → length text ≤ (store_of self.old).text_free }
        ensures { IfOk result (λ place. Interns (store_of self.old) (store_of self.new) text place) }
    {
        match self.pool.find(text.as_slice()) {
            Some(place) => Ok(place),
            None => {
                let place = self.pool.add(text)?;
                Ok(place)
            }
        }
    }

    /// The text at a place.
    pub fn text(&self, place: u32) -> &Text
        requires { IsSome ((store_of self.now).text place) }
        ensures { (store_of self.now).text place ≡ Some result.now }
    {
        self.pool.at(place)
    }

    /// Whether a text is there.
    pub fn has_text(&self, text: &Text) -> bool
        ensures { IsTrue result ↔ InPool (store_of self.now) text.now }
    {
        self.pool.find(text.as_slice()).is_some()
    }
}
