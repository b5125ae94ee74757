//! What the code of an operation is made of.
ghost use Rattle.std.specs.Prelude.{◌≡◌, ◌+◌, IfOk};
ghost use Rattle.ec_expressions.specs.Emitting as emitting;
ghost use Rattle.ec_meaning.specs.Programs as source;
ghost use Rattle.ec_meaning.specs.Types as static_types;

use crate::literals::Literals;
use crate::tables::Tables;
use ec_code::code::{Op, Operand, Variable};
use ec_core::{At, Place};
use ec_meaning::types::{number_of, viewed_as};
use ec_types::conform::static_type::StaticType;
use ec_world::class::{ClassNo, NameNo, ViewedAs};
use std::alloc::AllocError;

/// A program with its tables, how many names the class of the operation's objects captures, the types of the operation's named
/// variables, and the program's literals.
#[derive(Clone, Copy)]
pub struct Emitter<'a> {
    pub tables: &'a Tables<'a>,
    pub captured: usize,
    pub types: &'a [StaticType],
    pub literals: &'a Literals,
}

impl<'a> Emitter<'a> {
    /// The line of a place in the text.
    pub fn line(&self, at: At) -> u32
        ensures { result ≡ source.line (emitting.source_by self.now) at }
    {
        self.tables.program.line(at)
    }

    /// The number of a name of operations. The error is want of memory, or a number of more than 32 bits.
    pub(crate) fn name_number(&self, name: &[u8]) -> Result<NameNo, AllocError>
        ensures { IfOk result (λ n. n ≡ source.name_number (emitting.source_by self.now) name.now) }
    {
        self.tables.program.name_number(name)
    }

    /// The class whose type has a number. The error is a place of more than 32 bits.
    pub(crate) fn class_number(&self, number: usize) -> Result<ClassNo, AllocError>
        ensures { IfOk result (λ class. class ≡ source.class_number (emitting.source_by self.now) number) }
    {
        self.tables.class_number(number)
    }

    /// The type as which an object is viewed. The error is a number of a type that has more than 32 bits.
    pub(crate) fn type_viewed(&self, of: StaticType) -> Result<ViewedAs, AllocError>
        ensures { IfOk result (λ v. v ≡ static_types.viewed_as (emitting.source_by self.now).table of) }
    {
        viewed_as(self.tables.program.table(), of)
    }

    /// A value goes from its place into a variable. The error is a number of more than 32 bits.
    pub(crate) fn fetch(&self, to: Variable, place: Place) -> Result<Op, AllocError>
        ensures { IfOk result (λ o. o ≡ emitting.fetch_into self.now to place) }
    {
        match place {
            Place::Variable(n) => {
                let from = Operand::Of(Variable::Named(number_of(n)?));
                Ok(Op::Copy { to, from })
            }
            Place::Captured(n) => Ok(Op::Field {
                to,
                field: number_of(n)?,
            }),
            Place::Field(n) => Ok(Op::Field {
                to,
                field: self.field(n)?,
            }),
            Place::Constant(n) => {
                let index = number_of(self.tables.constant_number(n))?;
                Ok(Op::Constant { to, index })
            }
        }
    }

    /// The number of a field, behind the names that are captured. The error is one of more than 32 bits.
    fn field(&self, n: usize) -> Result<u32, AllocError>
        ensures { IfOk result (λ field. field ≡ self.now.captured + n) }
    {
        match self.captured.checked_add(n) {
            Some(field) => number_of(field),
            None => Err(AllocError),
        }
    }
}
