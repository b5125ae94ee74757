//! What a world is told of a program: its classes, and the types of its constants.
ghost use Rattle.std.specs.Prelude.{◌≡◌, IfOk, map};
ghost use Rattle.ec_meaning.specs.Programs as spec;
ghost use Rattle.ec_meaning.specs.Sources.{source_of};
ghost use Rattle.ec_meaning.specs.Types.{kind_of};

use crate::source::{Program, is_named};
use crate::types::{kind_of, number_of};
use ec_base::list::Seq;
use ec_core::{Class, Field, Kind, Operation};
use ec_types::conform::TypeTable;
use ec_types::conform::static_type::{Plain, StaticType};
use ec_world::class::{ClassRec, Classes, FieldRec, OperationRec};
use ec_world::value::{OpNo, ValueType};
use std::alloc::{AllocError, Global};

/// The classes and object constructors, in the order of the source. The error is want of memory, or a number of more
/// than 32 bits.
pub fn classes_of(alloc: Global, program: &Program) -> Result<Classes, AllocError>
    ensures { IfOk result (λ classes. classes ≡ spec.classes_of (source_of program.now)) }
{
    let mut found = Seq::new(alloc);
    let classes = program.core().classes.as_slice();
    for class in classes {
        found.push(class_of(alloc, program, class)?)?;
    }
    Ok(found)
}

/// The types of the constants, in their order. The error is want of memory.
pub(crate) fn globals_of(alloc: Global, program: &Program) -> Result<Seq<ValueType>, AllocError>
    ensures { IfOk result (λ types. types ≡ spec.globals_of (source_of program.now)) }
{
    let mut found = Seq::new(alloc);
    let constants = program.core().constants.as_slice();
    for constant in constants {
        found.push(kind_of(constant.of))?;
    }
    Ok(found)
}

fn class_of(alloc: Global, program: &Program, class: &Class) -> Result<ClassRec, AllocError>
    ensures { IfOk result (λ c. c ≡ spec.class_of (source_of program.now) class.now) }
{
    Ok(ClassRec {
        name: Seq::from_vec(Vec::from_slice(alloc, class.name.as_slice())?),
        initial: initial_of(program.core().operations.as_slice(), class.number)?,
        process: section_of(program.core().operations.as_slice(), class.number)?,
        monitored: class.is_monitored,
        conditions: number_of(class.conditions)?,
        fields: fields_of(alloc, class)?,
        operations: operations_of(alloc, program, class.number)?,
        conforms: conformances(alloc, program.table(), class.number)?,
    })
}

/// The number of the operation that makes the objects of a class; one more than that of the last one, where none does.
fn initial_of(operations: &[Operation], class: usize) -> Result<OpNo, AllocError>
    ensures { IfOk result (λ number. number ≡ spec.initial_from 1 operations.now class) }
{
    for (place, o) in operations.iter().enumerate() {
        if o.class == class && is_initial(o.kind) {
            return number_of(place + 1);
        }
    }
    number_of(operations.len() + 1)
}

/// Whether it is the making of an object.
fn is_initial(kind: Kind) -> bool
    ensures { result ≡ spec.is_initial kind }
{
    match kind {
        Kind::Initial => true,
        Kind::Named | Kind::Process => false,
    }
}

/// The number of the process section of a class, where it has one.
fn section_of(operations: &[Operation], class: usize) -> Result<Option<OpNo>, AllocError>
    ensures { IfOk result (λ number. number ≡ spec.section_from 1 operations.now class) }
{
    for (place, o) in operations.iter().enumerate() {
        if o.class == class && is_section(o.kind) {
            return Ok(Some(number_of(place + 1)?));
        }
    }
    Ok(None)
}

/// Whether it is a process section.
fn is_section(kind: Kind) -> bool
    ensures { result ≡ spec.is_section kind }
{
    match kind {
        Kind::Process => true,
        Kind::Named | Kind::Initial => false,
    }
}

/// The names that the objects of a class capture, and then their fields.
fn fields_of(alloc: Global, class: &Class) -> Result<Seq<FieldRec>, AllocError>
    ensures { IfOk result (λ fields. fields ≡ spec.fields_of class.now) }
{
    let mut found = captured_fields(alloc, class.captured.as_slice())?;
    found.append(declared_fields(alloc, class.fields.as_slice())?)?;
    Ok(found)
}

fn captured_fields(alloc: Global, types: &[StaticType]) -> Result<Seq<FieldRec>, AllocError>
    ensures { IfOk result (λ fields. fields ≡ map (λ of. spec.captured_field (kind_of of)) types.now) }
{
    let mut found = Seq::new(alloc);
    for of in types {
        found.push(FieldRec {
            attached: false,
            of: kind_of(*of),
        })?;
    }
    Ok(found)
}

fn declared_fields(alloc: Global, fields: &[Field]) -> Result<Seq<FieldRec>, AllocError>
    ensures { IfOk result (λ found. found ≡ map spec.declared_field fields.now) }
{
    let mut found = Seq::new(alloc);
    for field in fields {
        found.push(FieldRec {
            attached: field.is_attached,
            of: kind_of(field.of),
        })?;
    }
    Ok(found)
}

/// The operations of a class, by the numbers of their names.
fn operations_of(
    alloc: Global,
    program: &Program,
    class: usize,
) -> Result<Seq<OperationRec>, AllocError>
    ensures { IfOk result (λ found. found ≡ spec.operations_from (source_of program.now) 1 (source_of program.now).core.operations class) }
{
    let mut found = Seq::new(alloc);
    let operations = program.core().operations.as_slice();
    for (place, o) in operations.iter().enumerate() {
        if o.class == class && is_named(o.kind) {
            found.push(OperationRec {
                name: program.name_number(o.name.as_slice())?,
                operation: number_of(place + 1)?,
            })?;
        }
    }
    Ok(found)
}

/// For each named type, by its number, whether a class conforms to it.
fn conformances(alloc: Global, table: &TypeTable, class: usize) -> Result<Seq<bool>, AllocError>
    ensures { IfOk result (λ found. found ≡ spec.conformances table.now class) }
{
    let mut found = Seq::new(alloc);
    for number in 0..table.len() {
        let of = StaticType::Plain(Plain::Named(number));
        found.push(table.class_conforms(class, of))?;
    }
    Ok(found)
}
