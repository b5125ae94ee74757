//! The names of classes, as reports have them.
ghost use Rattle.std.specs.Prelude.{◌≡◌, ◌+◌, ◌++◌, OnOk, codes};
ghost use Rattle.ec_meaning.specs.ClassNames as spec;
ghost use Rattle.ec_meaning.specs.Sources.{source_of};

use crate::source::Program;
use ec_world::class::{ClassNo, PlainType, VectorType};
use std::alloc::AllocError;

impl Program<'_> {
    /// The name of a class is put behind a text. The error is want of memory.
    pub fn push_class_name(&self, class: ClassNo, out: &mut Vec<u8>) -> Result<(), AllocError>
        ensures { OnOk result (out.new.items ≡ out.old.items ++ spec.class_name (source_of self.now) class) }
    {
        match class {
            ClassNo::Node => out.extend_from_slice(b"Node"),
            ClassNo::Program => out.extend_from_slice(b"program"),
            ClassNo::Made(k) => self.push_declared_name(k as usize, out),
            ClassNo::Vector(of) => self.push_vector_name(of, out),
        }
    }

    /// The name of the class at a place among the declared ones, where there is one. The error is want of memory.
    fn push_declared_name(&self, place: usize, out: &mut Vec<u8>) -> Result<(), AllocError>
        ensures { OnOk result (out.new.items ≡ out.old.items ++ spec.class_name (source_of self.now) (ClassNo.Made place)) }
    {
        match self.core().classes.get(place) {
            Some(class) => out.extend_from_slice(class.name.as_slice()),
            None => Ok(()),
        }
    }

    /// `Vector.of[Integer]`. The error is want of memory.
    fn push_vector_name(&self, vector: VectorType, out: &mut Vec<u8>) -> Result<(), AllocError>
        ensures { OnOk result (out.new.items ≡ out.old.items ++ spec.vector_name (source_of self.now).table vector) }
    {
        let depth = vector.inner as u64 + 1;
        push_times(out, depth, b"Vector.of[")?;
        self.push_plain_name(vector.of, out)?;
        push_times(out, depth, b"]")
    }

    /// The name of a type that isn't a vector's. The error is want of memory.
    fn push_plain_name(&self, of: PlainType, out: &mut Vec<u8>) -> Result<(), AllocError>
        ensures { OnOk result (out.new.items ≡ out.old.items ++ spec.plain_name (source_of self.now).table of) }
    {
        match of {
            PlainType::Integer => out.extend_from_slice(b"Integer"),
            PlainType::Boolean => out.extend_from_slice(b"Boolean"),
            PlainType::Bytes => out.extend_from_slice(b"String"),
            PlainType::Any => out.extend_from_slice(b"Any"),
            PlainType::Node => out.extend_from_slice(b"Node"),
            PlainType::Named(number) => match self.table().name(number as usize) {
                Some(name) => out.extend_from_slice(name),
                None => Ok(()),
            },
        }
    }
}

/// A text is put behind another one so often. The error is want of memory.
fn push_times(out: &mut Vec<u8>, times: u64, text: &[u8]) -> Result<(), AllocError>
    ensures { OnOk result (out.new.items ≡ out.old.items ++ spec.times times text.now) }
{
    for _time in 0..times {
        out.extend_from_slice(text)?;
    }
    Ok(())
}
