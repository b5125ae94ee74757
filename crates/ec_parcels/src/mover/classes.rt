//! The numbers of classes on the wire.
ghost use Rattle.std.specs.Prelude.{◌≡◌, ◌+◌, ◌<◌, length};
ghost use Rattle.ec_parcels.specs.Classes as spec;
ghost use Rattle.ec_parcels.specs.Classes.{program_number};
ghost use Rattle.ec_world.specs.Held.{Distinct};

use ec_base::list::Seq;
use ec_world::class::{ClassNo, VectorType};
use std::marker::Model;

/// The numbers of classes on the wire. A class or object constructor has its place among these in the source, from 0; vector types
/// follow in the order of a list; and the class of the program's own object has the last number that there is, 2^32 - 1. The class of
/// nodes has none, since the object of a node never moves.
#[derive(Drop)]
pub struct ClassNumbers {
    made: u32,
    vectors: Seq<VectorType>,
}

impl Model for ClassNumbers {
    ghost use Rattle.ec_parcels.specs.Classes.{ClassTable, IsClassTable};

    ghost Value = { ClassTable };

    ghost view = { λ n. record { made = n.made; vectors = n.vectors } };

    ghost invariant = { λ n. IsClassTable (record { made = n.made; vectors = n.vectors }) };
}

impl ClassNumbers {
    ghost use Rattle.ec_parcels.specs.Classes.{IsClassTable};

    /// The numbers where there are so many classes and object constructors, and these vector types, each of them once; in all they are
    /// less than 2^32 - 1.
    pub fn new(made: u32, vectors: Seq<VectorType>) -> ClassNumbers
        requires once { Distinct vectors }
        requires few { made + length vectors < program_number }
        ensures { result ≡ record { made = made; vectors = vectors } }
    {
        ClassNumbers { made, vectors }
    }

    /// How many classes and object constructors there are.
    pub fn made(&self) -> u32
        ensures made { result ≡ self.now.made }
        ensures table { IsClassTable self.now }
    {
        self.made
    }

    /// The number of a class; none of one that isn't among these.
    pub fn number_of(&self, class: ClassNo) -> Option<u32>
        ensures { result ≡ spec.number_of self.now class }
    {
        match class {
            ClassNo::Node => None,
            ClassNo::Program => Some(u32::MAX),
            ClassNo::Made(place) => self.made_number(place),
            ClassNo::Vector(of) => self.vector_number(of),
        }
    }

    /// The class of a number; none of one that no class has.
    pub fn class_of(&self, number: u32) -> Option<ClassNo>
        ensures { result ≡ spec.class_of self.now number }
    {
        if number < self.made {
            return Some(ClassNo::Made(number));
        }
        if number == u32::MAX {
            return Some(ClassNo::Program);
        }
        let of = self.vectors.get((number - self.made) as usize)?;
        Some(ClassNo::Vector(*of))
    }

    /// The number of the class or object constructor of a place.
    fn made_number(&self, place: u32) -> Option<u32>
        ensures { result ≡ spec.made_number self.now.made place }
    {
        if place < self.made {
            return Some(place);
        }
        None
    }

    /// The number of the vectors of a type.
    fn vector_number(&self, of: VectorType) -> Option<u32>
        ensures { result ≡ spec.vector_number self.now of }
    {
        let place = place_of(self.vectors.as_slice(), of)?;
        Some(self.made + place as u32)
    }
}

/// The first place of a vector type among some.
fn place_of(vectors: &[VectorType], of: VectorType) -> Option<usize>
    ensures { result ≡ spec.place_of vectors.now of }
{
    vectors.iter().position(|vector| *vector == of)
}
