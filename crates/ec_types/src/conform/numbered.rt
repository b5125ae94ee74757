//! Types, with a number for each name of an operation, by which operations are found.
ghost use Rattle.std.specs.Prelude.{◌≡◌, Some, IfOk, IfSome, length, slice_get};
ghost use Rattle.std.specs.Option.{option_copied};
ghost use Rattle.ec_types.specs.Names.{first_named};
ghost use Rattle.ec_types.specs.Conforms.{operations_at};
ghost use Rattle.ec_types.specs.Numbered as spec;
ghost use Rattle.ec_types.specs.Rows.{place_of};
ghost use Rattle.ec_types.specs.Types.{operation_named};

use crate::conform::named_type::NamedType;
use crate::conform::operations::NamedOperation;
use crate::conform::row::Row;
use crate::names::Names;
use sqlite_items::at;
use std::alloc::{AllocError, Global};
use std::marker::Model;

/// Types, no two of whose operations have one name.
#[derive(Drop)]
pub struct NumberedTypes {
    types: Vec<NamedType>,
    /// Each name of an operation, once: its number is its place here.
    names: Names,
    /// For each type, the numbers of the names of its operations.
    rows: Vec<Row>,
}

impl Model for NumberedTypes {
    ghost use Rattle.std.specs.Prelude.{List};
    ghost use Rattle.ec_types.specs.declared.conform.named_type.NamedType.{NamedType};
    ghost use Rattle.ec_types.specs.Numbered.{AreNumbered};

    ghost Value = { List NamedType };

    ghost view = { λ t. t.types.items };

    ghost invariant = { λ t. AreNumbered t.types.items t.names t.rows.items };
}

impl NumberedTypes {
    /// The types with the numbers of their operations' names. The error is want of memory.
    pub fn new(alloc: Global, types: Vec<NamedType>) -> Result<NumberedTypes, AllocError>
        requires { spec.AreDistinct types.items }
        ensures { IfOk result (λ numbered. numbered ≡ types.items) }
    {
        let mut names = Names::new(alloc);
        let mut rows = Vec::new(alloc);
        for t in types.as_slice() {
            rows.push(row_of(alloc, t.operations.as_slice(), &mut names)?)?;
        }
        Ok(NumberedTypes { types, names, rows })
    }

    /// All, by their numbers.
    pub fn as_slice(&self) -> &[NamedType]
        ensures { result.now ≡ self.now }
    {
        self.types.as_slice()
    }

    /// How many there are.
    pub fn len(&self) -> usize
        ensures { result ≡ length self.now }
    {
        self.types.len()
    }

    /// The operations of a type. There are none where there is no such type.
    pub fn operations(&self, number: usize) -> &[NamedOperation]
        ensures { result.now ≡ operations_at self.now number }
    {
        match self.types.get(number) {
            None => &[],
            Some(t) => t.operations.as_slice(),
        }
    }

    /// The operation of the one type that has the name of the one at a place among those of the other.
    pub fn like(&self, own: usize, other: usize, place: usize) -> Option<&NamedOperation>
        ensures named { IfSome (slice_get (operations_at self.now other) place)
            (λ wanted. option_copied result ≡ operation_named (operations_at self.now own) wanted.name) }
        ensures distinct { spec.IsDistinct (operations_at self.now own) }
    {
        let number = number_at(self.rows.as_slice(), other, place)?;
        let own_place = place_of(self.rows.as_slice(), own, number)?;
        at(self.operations(own), own_place)
    }
}

/// The number at a place of a row.
fn number_at(rows: &[Row], row: usize, place: usize) -> Option<usize>
    ensures { result ≡ slice_get (spec.row_at rows.now row) place }
{
    at(rows, row)?.get(place)
}

/// The place of a number in a row.
fn place_of(rows: &[Row], row: usize, number: usize) -> Option<usize>
    ensures { result ≡ place_of (spec.row_at rows.now row) number }
{
    at(rows, row)?.place_of(number)
}

/// The numbers of the names of operations. Names that have none get one.
fn row_of(
    alloc: Global,
    operations: &[NamedOperation],
    names: &mut Names,
) -> Result<Row, AllocError>
    ensures { IfOk result (λ row. spec.IsNumbered operations.now names.new row × spec.IsMore names.old names.new) }
{
    let mut numbers = Vec::new(alloc);
    for o in operations {
        numbers.push(number_of(o.name.as_slice(), names)?)?;
    }
    Row::new(alloc, numbers)
}

/// The number of a name. It gets one where it has none.
fn number_of(name: &[u8], names: &mut Names) -> Result<usize, AllocError>
    ensures { IfOk result (λ number. (first_named names.new name.now ≡ Some number) × spec.IsMore names.old names.new) }
{
    match names.first(name)? {
        Some(number) => Ok(number),
        None => {
            let number = names.len();
            names.push(name)?;
            Ok(number)
        }
    }
}
