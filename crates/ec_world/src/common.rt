//! What a world has beside its processes, and what is seen of it.
ghost use Rattle.std.specs.Prelude.{◌≡◌, option_map};
ghost use Rattle.ec_world.specs.Group.{any_fixed};
ghost use Rattle.ec_world.specs.Objects.{object_at, class_at, elements_if};
ghost use Rattle.ec_world.specs.Sights.{sight_of};

use crate::class::{ClassNo, ClassRec, Classes};
use crate::event::Event;
use crate::group::group_in;
use crate::object::ObjectRec;
use crate::sight::{Sees, class_in};
use crate::value::{Oid, Oids, Text, Value, Values};
use ec_base::list::Seq;
use std::alloc::{AllocError, Global};

/// How many nodes there are, the program's classes, objects by number from 1, global constants, the output so far, and
/// the events so far. The objects of the nodes come first, then the program's own.
#[derive(Drop)]
pub struct Common {
    pub nodes: u32,
    pub classes: Classes,
    pub objects: Seq<ObjectRec>,
    pub globals: Values,
    pub output: Text,
    pub events: Seq<Event>,
}

impl Common {
    /// The object of a number.
    pub fn object(&self, oid: Oid) -> Option<&ObjectRec>
        ensures { option_map (λ o. o.now) result ≡ object_at self.now.objects oid }
    {
        if oid == 0 {
            return None;
        }
        self.objects.get(oid as usize - 1)
    }

    /// The class or object constructor of a number.
    pub(crate) fn class(&self, class: ClassNo) -> Option<&ClassRec>
        ensures { option_map (λ k. k.now) result ≡ class_at self.now.classes class }
    {
        class_in(&self.classes, class)
    }

    /// Whether some member is fixed.
    pub fn any_fixed(&self, members: &[Oid]) -> bool
        ensures { result ≡ any_fixed self.now members.now }
    {
        for oid in members {
            if self.is_fixed(*oid) {
                return true;
            }
        }
        false
    }

    /// The elements of an object, where it is a vector.
    fn elements(&self, oid: Oid) -> Option<&Values>
        ensures { option_map (λ vs. vs.now) result ≡ elements_if (object_at self.now.objects oid) }
    {
        let object = self.object(oid)?;
        match object.class {
            ClassNo::Vector(_) => Some(&object.fields),
            ClassNo::Node | ClassNo::Program | ClassNo::Made(_) => None,
        }
    }
}

impl Sees for Common {
    ghost sight = { sight_of };

    fn nodes(&self) -> u32 {
        self.nodes
    }

    fn classes(&self) -> &Classes {
        &self.classes
    }

    fn constants(&self) -> usize {
        self.globals.len()
    }

    fn class_of(&self, oid: Oid) -> Option<ClassNo> {
        let object = self.object(oid)?;
        Some(object.class)
    }

    fn size_of(&self, oid: Oid) -> Option<usize> {
        let values = self.elements(oid)?;
        Some(values.len())
    }

    fn element(&self, _alloc: Global, oid: Oid, index: u32) -> Result<Option<Value>, AllocError> {
        let Some(values) = self.elements(oid) else {
            return Ok(None);
        };
        match values.get(index as usize) {
            Some(value) => Ok(Some(value.copy()?)),
            None => Ok(None),
        }
    }

    fn is_fixed(&self, oid: Oid) -> bool {
        match self.object(oid) {
            Some(object) => object.fixed,
            None => false,
        }
    }

    fn group(&self, _alloc: Global, oid: Oid) -> Result<Oids, AllocError> {
        Ok(Seq::from_vec(group_in(self, oid)?))
    }
}
