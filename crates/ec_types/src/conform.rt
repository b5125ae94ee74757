//! Which types and operations a program declares, and which types conform to which.

ghost use Rattle.std.specs.Prelude.{◌≡◌, ◌↔◌, IfOk, length, option_map, slice_get, true};
ghost use Rattle.std.specs.Option.{option_copied};
ghost use Rattle.ec_types.specs.Names.{first_named};
ghost use Rattle.ec_types.specs.Conforms.{Conforms, operations_at};
ghost use Rattle.ec_types.specs.Declarations.{declarations_of as declared_by};
ghost use Rattle.ec_types.specs.Table.{conforms, IsTable};
ghost use Rattle.ec_types.specs.Types as spec;

pub mod declared;
pub mod named_type;
mod numbered;
pub mod operations;
mod pairs;
mod row;
pub mod static_type;

use crate::conform::declared::{Declarations, declarations_of};
use crate::conform::named_type::{firsts_of, names_of, places_of, types_with};
use crate::conform::numbered::NumberedTypes;
use crate::conform::operations::NamedOperation;
use crate::conform::pairs::{conforms_by, largest};
use crate::conform::row::Row;
use crate::conform::static_type::{Plain, StaticType};
use crate::names::Names;
use ec_ast::{Program, Span, TypeName};
use std::alloc::{AllocError, Global};
use std::marker::Model;

/// The types that a program declares, by their numbers, which of them conform to which, and where its operations stand.
#[derive(Drop)]
pub struct TypeTable {
    names: Names,
    /// The first bytes of the names.
    places: Row,
    types: NumberedTypes,
    /// For each two types, whether the first conforms to the second.
    pairs: Vec<bool>,
    /// The first bytes of the places of the operations.
    operations: Vec<usize>,
}

impl Model for TypeTable {
    ghost use Rattle.ec_types.specs.Table.{Table};
    ghost use Rattle.ec_types.specs.Pairs.{IsLargest};

    ghost Value = { Table };

    ghost view = { λ t. record {
      names = t.names;
      places = t.places;
      types = t.types;
      pairs = t.pairs.items;
      operations = t.operations.items;
    } };

    ghost invariant = { λ t. IsLargest t.types t.pairs.items };
}

impl TypeTable {
    /// The table of a program. The error is want of memory.
    pub fn build(alloc: Global, program: &Program) -> Result<TypeTable, AllocError>
        ensures { IfOk result (λ table. IsTable (declared_by program.now) table) }
    {
        let declared = declarations_of(alloc, program)?;
        TypeTable::of_declarations(alloc, &declared)
    }

    /// The table of declarations. The error is want of memory.
    pub(crate) fn of_declarations(
        alloc: Global,
        declared: &Declarations,
    ) -> Result<TypeTable, AllocError>
        ensures { IfOk result (λ table. IsTable declared.now table) }
    {
        let written = declared.types.as_slice();
        let names = names_of(alloc, written)?;
        let places = Row::new(alloc, places_of(alloc, written)?)?;
        let types = NumberedTypes::new(alloc, types_with(alloc, &names, written)?)?;
        let pairs = largest(alloc, &types)?;
        let operations = firsts_of(alloc, declared.operations.as_slice())?;
        Ok(TypeTable {
            names,
            places,
            types,
            pairs,
            operations,
        })
    }

    /// How many types there are.
    pub fn len(&self) -> usize
        ensures { result ≡ length self.now.types }
    {
        self.types.len()
    }

    /// The number of the first type with this name. The error is want of memory.
    pub fn first_named(&self, name: &[u8]) -> Result<Option<usize>, AllocError>
        ensures { IfOk result (λ found. found ≡ first_named self.now.names name.now) }
    {
        self.names.first(name)
    }

    /// The name of the type with this number, as it was declared.
    pub fn name(&self, number: usize) -> Option<&[u8]>
        ensures { option_map (λ name. name.now) result ≡ slice_get self.now.names number }
    {
        self.names.get(number)
    }

    /// The number of the first type whose name begins where this place does; how many there are, where none does.
    pub fn number_at(&self, at: Span) -> usize
        ensures { result ≡ spec.number_at self.now.places at.from }
    {
        match self.places.place_of(at.from as usize) {
            None => self.places.len(),
            Some(number) => number,
        }
    }

    /// The first byte of the name of the type with this number.
    pub fn place(&self, number: usize) -> Option<usize>
        ensures { result ≡ slice_get self.now.places number }
    {
        self.places.get(number)
    }

    /// The first byte of the place of the operation with this number, of those of objects and classes.
    pub fn operation_place(&self, number: usize) -> Option<usize>
        ensures { result ≡ slice_get self.now.operations number }
    {
        self.operations.get(number).copied()
    }

    /// The type that is written so. The error is want of memory.
    pub fn type_of(&self, written: &TypeName) -> Result<StaticType, AllocError>
        ensures { IfOk result (λ t. t ≡ spec.type_of self.now.names written.now) }
    {
        named_type::type_of(&self.names, written)
    }

    /// The first operation with this name of the type with this number. The error is want of memory.
    pub fn operation(
        &self,
        number: usize,
        name: &[u8],
    ) -> Result<Option<&NamedOperation>, AllocError>
        ensures { IfOk result (λ found. option_copied found ≡ spec.operation_named (operations_at self.now.types number) name.now) }
    {
        match self.types.as_slice().get(number) {
            None => Ok(None),
            Some(of) => of.operations.named(name),
        }
    }

    /// Whether a type conforms to another.
    pub fn conforms(&self, s: StaticType, t: StaticType) -> bool
        ensures equal { result ≡ conforms self.now s t }
        ensures relation { (result ≡ true) ↔ Conforms self.now.types s t }
    {
        conforms_by(&self.types, self.pairs.as_slice(), s, t)
    }

    /// Whether the typeobject, class or object constructor with this number conforms to a type.
    pub fn class_conforms(&self, class: usize, t: StaticType) -> bool
        ensures equal { result ≡ conforms self.now (spec.named class) t }
        ensures relation { (result ≡ true) ↔ Conforms self.now.types (spec.named class) t }
    {
        self.conforms(StaticType::Plain(Plain::Named(class)), t)
    }
}
