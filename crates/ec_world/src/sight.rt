//! What a reader of a world sees, before anything is done.
ghost use Rattle.std.specs.Prelude.{◌≡◌, IfOk, option_map};
ghost use Rattle.ec_world.specs.Objects.{class_at};
ghost use Rattle.ec_world.specs.Sights as spec;
ghost use Rattle.ec_world.specs.Sights.{Sight};

use crate::class::{ClassNo, ClassRec, Classes};
use crate::value::{Oid, Oids, Value};
use std::alloc::{AllocError, Global};

/// What can be looked at as a world: the world itself, or nodes that show it.
pub trait Sees {
    ghost sight: { Self → Sight };

    /// How many nodes there are.
    fn nodes(&self) -> u32
        ensures { result ≡ (sight self.now).nodes };

    /// The classes and object constructors of the program.
    fn classes(&self) -> &Classes
        ensures { result.now ≡ (sight self.now).classes };

    /// How many global constants there are.
    fn constants(&self) -> usize
        ensures { result ≡ (sight self.now).constants };

    /// The class of an object that is there.
    fn class_of(&self, oid: Oid) -> Option<ClassNo>
        ensures { result ≡ (sight self.now).class oid };

    /// How many elements a vector has; none where the object is no vector.
    fn size_of(&self, oid: Oid) -> Option<usize>
        ensures { result ≡ (sight self.now).size oid };

    /// The element of a vector at an index, from 0. The error is want of memory.
    fn element(&self, alloc: Global, oid: Oid, index: u32) -> Result<Option<Value>, AllocError>
        ensures { IfOk result (λ v. v ≡ (sight self.now).element oid index) };

    /// Whether an object is there and fixed.
    fn is_fixed(&self, oid: Oid) -> bool
        ensures { result ≡ (sight self.now).fixed oid };

    /// The members of an object's group, rising. The error is want of memory, or a member whose number has more than 32 bits.
    fn group(&self, alloc: Global, oid: Oid) -> Result<Oids, AllocError>
        ensures { IfOk result (λ members. members ≡ (sight self.now).group oid) };
}

/// The class or object constructor of a number.
pub(crate) fn class_in(classes: &Classes, class: ClassNo) -> Option<&ClassRec>
    ensures { option_map (λ k. k.now) result ≡ class_at classes.now class }
{
    match class {
        ClassNo::Made(number) => classes.get(number as usize),
        ClassNo::Node | ClassNo::Program | ClassNo::Vector(_) => None,
    }
}

/// The class or object constructor of an object, where it has one.
pub(crate) fn class_record<W: Sees>(world: &W, oid: Oid) -> Option<&ClassRec>
    ensures { option_map (λ k. k.now) result ≡ spec.class_record (W.sight world.now) oid }
{
    let class = world.class_of(oid)?;
    class_in(world.classes(), class)
}
