//! Operations, from their steps.
ghost use Rattle.std.specs.Prelude.{◌≡◌, take, IfOk};
ghost use Rattle.ec_emission.specs.Literals.{literals_of};
ghost use Rattle.ec_emission.specs.Statements.{operation_ops, program_ops};
ghost use Rattle.ec_emission.specs.Lowered as spec;
ghost use Rattle.ec_meaning.specs.Sources.{source_of};
ghost use Rattle.ec_meaning.specs.Steps.{captured_by};

use crate::lines::lines::lines_of;
use crate::lines::site::Site;
use ec_base::list::Seq;
use ec_code::code::{Op, Operation as Made};
use ec_core::{Kind, Operation};
use ec_meaning::source::Program;
use ec_types::conform::static_type::{Plain, StaticType};
use ec_world::class::ClassNo;
use std::alloc::{AllocError, Global};

/// An operation of an object of a class, from its steps. The error is want of memory.
pub fn operation_of(
    alloc: Global,
    program: &Program<'_>,
    class: ClassNo,
    o: &Operation,
    ops: Seq<Op>,
) -> Result<Made, AllocError>
    requires own { class ≡ spec.class_of_operation (source_of program.now) o.now }
    requires steps { let s = source_of program.now in
        ops ≡ operation_ops s (captured_by s class) (literals_of s.core) o.now }
    ensures { IfOk result (λ made. spec.IsOperationOf (source_of program.now) o.now made) }
{
    let site = Site {
        program,
        class,
        variables: o.variables.as_slice(),
    };
    let code = lines_of(alloc, &site, ops)?;
    let parameters = first_types(alloc, o.variables.as_slice(), o.parameters)?;
    let variables = Vec::from_slice(alloc, o.variables.as_slice())?;
    Ok(Made {
        class,
        parameters,
        result: result_of(o),
        is_lowest: is_process(o.kind),
        variables: Seq::from_vec(variables),
        code,
    })
}

/// The program's own operation, from its steps. The error is want of memory.
pub fn program_operation(
    alloc: Global,
    program: &Program<'_>,
    ops: Seq<Op>,
) -> Result<Made, AllocError>
    requires { let s = source_of program.now in ops ≡ program_ops s (literals_of s.core) }
    ensures { IfOk result (λ made. spec.IsProgramOf (source_of program.now) made) }
{
    let site = Site {
        program,
        class: ClassNo::Program,
        variables: &[],
    };
    let code = lines_of(alloc, &site, ops)?;
    Ok(Made {
        class: ClassNo::Program,
        parameters: Seq::new(alloc),
        result: None,
        is_lowest: true,
        variables: Seq::new(alloc),
        code,
    })
}

/// So many types, or all where there are fewer. The error is want of memory.
fn first_types(
    alloc: Global,
    types: &[StaticType],
    count: usize,
) -> Result<Seq<StaticType>, AllocError>
    ensures { IfOk result (λ first. first ≡ take count types.now) }
{
    let end = count.min(types.len());
    Ok(Seq::from_vec(Vec::from_slice(alloc, &types[..end])?))
}

/// What an operation gives. The making of an object gives it.
fn result_of(o: &Operation) -> Option<StaticType>
    ensures { result ≡ spec.result_type o.now.kind o.now }
{
    match o.kind {
        Kind::Named => {
            if o.has_result {
                o.variables.get(o.parameters).copied()
            } else {
                None
            }
        }
        Kind::Initial => Some(StaticType::Plain(Plain::Named(o.class))),
        Kind::Process => None,
    }
}

/// Whether it is a process section.
fn is_process(kind: Kind) -> bool
    ensures { result ≡ spec.is_process kind }
{
    match kind {
        Kind::Process => true,
        Kind::Named | Kind::Initial => false,
    }
}
