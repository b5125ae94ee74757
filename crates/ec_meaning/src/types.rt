//! The static types of the core, as a world knows them.
ghost use Rattle.std.specs.Prelude.{◌≡◌, IfOk};
ghost use Rattle.ec_meaning.specs.Types as spec;

use ec_types::conform::TypeTable;
use ec_types::conform::static_type::{Plain, StaticType};
use ec_world::class::{PlainType, VectorType, ViewedAs};
use ec_world::value::ValueType;
use std::alloc::AllocError;

/// What a variable, a field or a constant of a type holds.
pub fn kind_of(of: StaticType) -> ValueType
    ensures { result ≡ spec.kind_of of }
{
    match of {
        StaticType::Plain(of) => plain_kind(of),
        StaticType::Vector(_, _) | StaticType::Nil | StaticType::Unknown => ValueType::Reference,
    }
}

fn plain_kind(of: Plain) -> ValueType
    ensures { result ≡ spec.plain_kind of }
{
    match of {
        Plain::Integer => ValueType::Integer,
        Plain::Boolean => ValueType::Boolean,
        Plain::String => ValueType::Bytes,
        Plain::Any | Plain::Node | Plain::Named(_) => ValueType::Reference,
    }
}

/// The type of a vector: no other stands where one is wanted. Want of memory where the number of its named type, or of
/// the vectors around it, has more than 32 bits.
pub fn vector_type(of: StaticType) -> Result<VectorType, AllocError>
    ensures { IfOk result (λ v. v ≡ spec.vector_type of) }
{
    match of {
        StaticType::Vector(inner, of) => vector_with(inner, of),
        StaticType::Plain(of) => vector_with(0, of),
        StaticType::Nil | StaticType::Unknown => vector_with(0, Plain::Any),
    }
}

/// The type of a vector, with so many vectors around its plain type.
fn vector_with(inner: usize, of: Plain) -> Result<VectorType, AllocError>
    ensures { IfOk result (λ v. v ≡ spec.vector_with inner of) }
{
    Ok(VectorType {
        inner: number_of(inner)?,
        of: plain_type(of)?,
    })
}

fn plain_type(of: Plain) -> Result<PlainType, AllocError>
    ensures { IfOk result (λ t. t ≡ spec.plain_type of) }
{
    match of {
        Plain::Integer => Ok(PlainType::Integer),
        Plain::Boolean => Ok(PlainType::Boolean),
        Plain::String => Ok(PlainType::Bytes),
        Plain::Any => Ok(PlainType::Any),
        Plain::Node => Ok(PlainType::Node),
        Plain::Named(number) => Ok(PlainType::Named(number_of(number)?)),
    }
}

/// The type as which an object is viewed. Want of memory as for the type of a vector.
pub fn viewed_as(table: &TypeTable, of: StaticType) -> Result<ViewedAs, AllocError>
    ensures { IfOk result (λ v. v ≡ spec.viewed_as table.now of) }
{
    match of {
        StaticType::Plain(of) => viewed_plain(table, of),
        StaticType::Vector(inner, of) => Ok(ViewedAs::Vector(vector_with(inner, of)?)),
        StaticType::Nil | StaticType::Unknown => Ok(ViewedAs::Any),
    }
}

fn viewed_plain(table: &TypeTable, of: Plain) -> Result<ViewedAs, AllocError>
    ensures { IfOk result (λ v. v ≡ spec.viewed_plain table.now of) }
{
    match of {
        Plain::Named(number) => viewed_named(table, number),
        Plain::Node => Ok(ViewedAs::Node),
        Plain::Any | Plain::Integer | Plain::Boolean | Plain::String => Ok(ViewedAs::Any),
    }
}

/// A named type: Any conforms to it where it has no operations.
fn viewed_named(table: &TypeTable, number: usize) -> Result<ViewedAs, AllocError>
    ensures { IfOk result (λ v. v ≡ spec.viewed_plain table.now (Plain.Named number)) }
{
    let any = StaticType::Plain(Plain::Any);
    let named = StaticType::Plain(Plain::Named(number));
    Ok(ViewedAs::Named {
        number: number_of(number)?,
        is_bare: table.conforms(any, named),
    })
}

/// A number of 32 bits. Want of memory where it has more.
pub fn number_of(number: usize) -> Result<u32, AllocError>
    ensures { IfOk result (λ n. n ≡ number) }
{
    match u32::try_from(number) {
        Ok(number) => Ok(number),
        Err(_) => Err(AllocError),
    }
}
