//! The program of three-address code that a source is lowered to.
ghost use Rattle.std.specs.Prelude.{◌≡◌, map, IfOk};
ghost use Rattle.ec_emission.specs.Literals.{literals_of};
ghost use Rattle.ec_emission.specs.Lowered as spec;
ghost use Rattle.ec_meaning.specs.Sources.{source_of};
ghost use Rattle.ec_world.specs.Agree.{AllTwo};

use crate::lines::operations::{operation_of, program_operation};
use crate::statements::operations::{operation_ops, program_ops};
use ec_base::list::Seq;
use ec_code::code::{Operation as Made, Parts};
use ec_core::{Constant, Operation};
use ec_expressions::literals::{Literals, literals_of};
use ec_expressions::tables::Tables;
use ec_meaning::classes::classes_of;
use ec_meaning::source::Program;
use ec_types::conform::static_type::StaticType;
use std::alloc::{AllocError, Global};

/// The program that a source is lowered to. The error is want of memory, a number of more than 31 bits, or one of a
/// variable, a field, a constant, a literal, a name, a type, a condition, a count of operands or a distance of more than 32.
pub fn lower(alloc: Global, program: &Program<'_>) -> Result<Parts, AllocError>
    ensures { IfOk result (λ parts. spec.IsLowered (source_of program.now) parts) }
{
    let classes = classes_of(alloc, program)?;
    let constants = constant_types(alloc, program.core().constants.as_slice())?;
    let tables = Tables::new(alloc, program)?;
    let literals = literals_of(alloc, tables.program.core())?;
    let operations = operations_of(alloc, &tables, &literals)?;
    Ok(Parts {
        classes,
        constants,
        literals: literals.into_texts(),
        operations,
    })
}

/// The types of constants. The error is want of memory.
fn constant_types(alloc: Global, constants: &[Constant]) -> Result<Seq<StaticType>, AllocError>
    ensures { IfOk result (λ types. types ≡ map (λ c. c.of) constants.now) }
{
    let mut types = Seq::new(alloc);
    for constant in constants {
        types.push(constant.of)?;
    }
    Ok(types)
}

/// The program's own operation, and those of its objects behind it. The error is that of the program.
fn operations_of(
    alloc: Global,
    tables: &Tables<'_>,
    literals: &Literals,
) -> Result<Seq<Made>, AllocError>
    requires { literals.now ≡ literals_of (source_of tables.now.program.now).core }
    ensures { IfOk result (λ made. spec.AreOperationsOf (source_of tables.now.program.now) made) }
{
    let ops = program_ops(alloc, tables, literals)?;
    let mut operations = Seq::new(alloc);
    operations.push(program_operation(alloc, tables.program, ops)?)?;
    operations.append(object_operations(alloc, tables, literals)?)?;
    Ok(operations)
}

/// The operations of objects, in their order. The error is that of the program.
fn object_operations(
    alloc: Global,
    tables: &Tables<'_>,
    literals: &Literals,
) -> Result<Seq<Made>, AllocError>
    requires { literals.now ≡ literals_of (source_of tables.now.program.now).core }
    ensures { IfOk result
        (λ made. let s = source_of tables.now.program.now in AllTwo (spec.IsOperationOf s) s.core.operations made) }
{
    let mut made = Seq::new(alloc);
    let operations = tables.program.core().operations.as_slice();
    for o in operations {
        made.push(object_operation(alloc, tables, literals, o)?)?;
    }
    Ok(made)
}

/// An operation of an object. The error is that of the program.
fn object_operation(
    alloc: Global,
    tables: &Tables<'_>,
    literals: &Literals,
    o: &Operation,
) -> Result<Made, AllocError>
    requires { literals.now ≡ literals_of (source_of tables.now.program.now).core }
    ensures { IfOk result (λ made. spec.IsOperationOf (source_of tables.now.program.now) o.now made) }
{
    let class = tables.class_number(o.class)?;
    let captured = tables.program.captured_by(class);
    let ops = operation_ops(alloc, tables, captured, literals, o)?;
    operation_of(alloc, tables.program, class, o, ops)
}
