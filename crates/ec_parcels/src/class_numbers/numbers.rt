//! The numbers of a program's classes on the wire.
ghost use Rattle.std.specs.Prelude.{◌≡◌, IfOk, OnOk};
ghost use Rattle.ec_parcels.specs.Vectors as spec;

use crate::mover::classes::ClassNumbers;
use ec_base::list::Seq;
use ec_code::code::{Line, Op, Operation, Parts};
use ec_world::class::VectorType;
use ec_world::stop::Stop;
use std::alloc::{AllocError, Global};

/// The numbers of a program's classes on the wire: those of its classes and object constructors; then those of the vectors of each type that
/// is written, each type where it stands first; and then those of any other types of which its code makes vectors. The error is want of
/// memory, or that there are 2^32 - 1 classes and vector types or more.
#[tactic(auto, using(crate::proofs::Types::all_once))]
pub fn class_numbers(
    alloc: Global,
    parts: &Parts,
    written: &[VectorType],
) -> Result<ClassNumbers, AllocError>
    ensures { IfOk result (λ numbers. numbers ≡ spec.table_of parts.now written.now) }
{
    let mut types = Seq::new(alloc);
    add_types(&mut types, written)?;
    add_operations(&mut types, parts.operations.as_slice())?;
    let made = parts.classes.len();
    let most = u32::MAX as usize;
    if made >= most || types.len() >= most - made {
        return Err(AllocError);
    }
    Ok(ClassNumbers::new(made as u32, types))
}

/// The types of a list, behind those that are there, each once. The error is want of memory.
fn add_types(types: &mut Seq<VectorType>, list: &[VectorType]) -> Result<(), AllocError>
    ensures { OnOk result (types.new ≡ spec.with_types types.old list.now) }
{
    for of in list {
        add_type(types, *of)?;
    }
    Ok(())
}

/// The types of the vectors that some operations make, behind those that are there, each once. The error is want of memory.
fn add_operations(types: &mut Seq<VectorType>, operations: &[Operation]) -> Result<(), AllocError>
    ensures { OnOk result (types.new ≡ spec.with_operations types.old operations.now) }
{
    for operation in operations {
        add_lines(types, operation.code.as_slice())?;
    }
    Ok(())
}

/// The types of the vectors that some lines make, behind those that are there, each once. The error is want of memory.
fn add_lines(types: &mut Seq<VectorType>, lines: &[Line]) -> Result<(), AllocError>
    ensures { OnOk result (types.new ≡ spec.with_lines types.old lines.now) }
{
    for line in lines {
        add_made(types, made_on(line))?;
    }
    Ok(())
}

/// The type that a line makes, if it makes one, unless it is there. The error is want of memory.
fn add_made(types: &mut Seq<VectorType>, made: Option<VectorType>) -> Result<(), AllocError>
    ensures { OnOk result (types.new ≡ spec.with_made types.old made) }
{
    match made {
        Some(of) => add_type(types, of),
        None => Ok(()),
    }
}

/// A type, unless it is there. The error is want of memory.
fn add_type(types: &mut Seq<VectorType>, of: VectorType) -> Result<(), AllocError>
    ensures { OnOk result (types.new ≡ spec.with_type types.old of) }
{
    if has_type(types.as_slice(), of) {
        return Ok(());
    }
    types.push(of)
}

/// Whether a type is one of some.
fn has_type(types: &[VectorType], of: VectorType) -> bool
    ensures { result ≡ spec.has_type types.now of }
{
    types.iter().any(|there| *there == of)
}

/// The type of the vectors that a line makes, if it makes one.
fn made_on(line: &Line) -> Option<VectorType>
    ensures { result ≡ spec.made_on line.now }
{
    match &line.op {
        Op::Rest(row) => made_at(row.stop),
        _ => None,
    }
}

/// The type of the vectors that the action of a stop makes, if it makes one.
fn made_at(stop: Stop) -> Option<VectorType>
    ensures { result ≡ spec.made_at stop }
{
    match stop {
        Stop::NewVector { of, .. } => Some(of),
        _ => None,
    }
}
