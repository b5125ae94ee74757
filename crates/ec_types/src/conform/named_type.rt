//! The types of a program's declarations, with a number for each name.
ghost use Rattle.std.specs.Prelude.{◌≡◌, IfOk, OnOk, [], ◌∷◌, map, option_map};
ghost use Rattle.ec_types.specs.Numbered.{AreDistinct};
ghost use Rattle.ec_types.specs.Types as spec;

use crate::conform::declared::DeclaredType;
use crate::conform::operations::{NamedOperation, Operations};
use crate::conform::static_type::{Plain, StaticType, vector_of};
use crate::names::Names;
use ec_ast::{Signature, Span, TypeName};
use sqlite_items::Items;
use std::alloc::{AllocError, Global};

/// The operations of a type that a program declares.
#[derive(Drop)]
pub struct NamedType {
    pub operations: Operations,
}

/// The names of declared types. The error is want of memory.
pub fn names_of(alloc: Global, declared: &[DeclaredType]) -> Result<Names, AllocError>
    ensures { IfOk result (λ names. names ≡ spec.names_of declared.now) }
{
    let mut names = Names::new(alloc);
    for d in declared {
        names.push(d.name.text.as_slice())?;
    }
    Ok(names)
}

/// The first bytes of the names of declared types. The error is want of memory.
pub fn places_of(alloc: Global, declared: &[DeclaredType]) -> Result<Vec<usize>, AllocError>
    ensures { IfOk result (λ places. places.items ≡ spec.places_of declared.now) }
{
    let mut places = Vec::new(alloc);
    for d in declared {
        places.push(d.name.at.from as usize)?;
    }
    Ok(places)
}

/// The first bytes of places. The error is want of memory.
pub fn firsts_of(alloc: Global, places: &[Span]) -> Result<Vec<usize>, AllocError>
    ensures { IfOk result (λ firsts. firsts.items ≡ spec.firsts_of places.now) }
{
    let mut firsts = Vec::new(alloc);
    for at in places {
        firsts.push(at.from as usize)?;
    }
    Ok(firsts)
}

/// The type that a name names. The error is want of memory.
fn type_named(names: &Names, name: &[u8]) -> Result<StaticType, AllocError>
    ensures { IfOk result (λ t. t ≡ spec.type_named names.now name.now) }
{
    match names.first(name)? {
        None => Ok(StaticType::Unknown),
        Some(number) => Ok(StaticType::Plain(Plain::Named(number))),
    }
}

/// The type that is written so. The error is want of memory.
pub fn type_of(names: &Names, written: &TypeName) -> Result<StaticType, AllocError>
    ensures { IfOk result (λ t. t ≡ spec.type_of names.now written.now) }
{
    match written {
        TypeName::Integer(_) => Ok(StaticType::Plain(Plain::Integer)),
        TypeName::Boolean(_) => Ok(StaticType::Plain(Plain::Boolean)),
        TypeName::String(_) => Ok(StaticType::Plain(Plain::String)),
        TypeName::Any(_) => Ok(StaticType::Plain(Plain::Any)),
        TypeName::Node(_) => Ok(StaticType::Plain(Plain::Node)),
        TypeName::Named(name) => type_named(names, name.text.as_slice()),
        TypeName::Vector(element, _) => vector_of(type_of(names, element.get())?).ok_or(AllocError),
    }
}

fn types_of(
    alloc: Global,
    names: &Names,
    written: &[TypeName],
) -> Result<Items<StaticType>, AllocError>
    ensures { IfOk result (λ types. types ≡ map (spec.type_of names.now) written.now) }
{
    let mut types = Items::new(alloc);
    for of in written {
        types.push(type_of(names, of)?)?;
    }
    Ok(types)
}

fn result_of(names: &Names, written: &Option<TypeName>) -> Result<Option<StaticType>, AllocError>
    ensures { IfOk result (λ found. found ≡ option_map (spec.type_of names.now) written.now) }
{
    match written {
        None => Ok(None),
        Some(of) => Ok(Some(type_of(names, of)?)),
    }
}

fn operation_of(
    alloc: Global,
    names: &Names,
    written: &Signature,
) -> Result<NamedOperation, AllocError>
    ensures { IfOk result (λ o. o ≡ spec.operation_of names.now written.now) }
{
    Ok(NamedOperation {
        name: Items::from_slice(alloc, written.name.text.as_slice())?,
        parameters: types_of(alloc, names, written.parameters.as_slice())?,
        result: result_of(names, &written.result)?,
    })
}

/// Takes an operation, unless there is one of its name.
fn take(
    alloc: Global,
    names: &Names,
    taken: &mut Operations,
    written: &Signature,
) -> Result<(), AllocError>
    ensures { OnOk result (taken.new ≡ spec.operations_from names.now taken.old (written.now ∷ [])) }
{
    if !taken.has(written.name.text.as_slice())? {
        taken.push(operation_of(alloc, names, written)?)?;
    }
    Ok(())
}

fn type_with(alloc: Global, names: &Names, declared: &DeclaredType) -> Result<NamedType, AllocError>
    ensures { IfOk result (λ t. t ≡ spec.type_with names.now declared.now) }
{
    let mut operations = Operations::new(alloc);
    for written in declared.operations.as_slice() {
        take(alloc, names, &mut operations, written)?;
    }
    Ok(NamedType { operations })
}

/// The types of declarations, by their names. The error is want of memory.
pub(crate) fn types_with(
    alloc: Global,
    names: &Names,
    declared: &[DeclaredType],
) -> Result<Vec<NamedType>, AllocError>
    ensures { IfOk result (λ types. types.items ≡ map (spec.type_with names.now) declared.now) }
{
    let mut types = Vec::new(alloc);
    for d in declared {
        types.push(type_with(alloc, names, d)?)?;
    }
    Ok(types)
}
