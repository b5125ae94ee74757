//! The code of operations.
ghost use Rattle.std.specs.Prelude.{◌≡◌, [], IfOk, OnOk, drop};
ghost use Rattle.ec_emission.specs.Statements as spec;
ghost use Rattle.ec_expressions.specs.Emitting.{source_by};
ghost use Rattle.ec_meaning.specs.Sources.{source_of};
ghost use Rattle.ec_lowering.specs.Blocks as emitting;

use crate::statements::blocks::block;
use crate::statements::statements::{leave, reset};
use ec_base::list::Seq;
use ec_code::code::Op;
use ec_core::{Constant, Operation};
use ec_expressions::backward::Backward;
use ec_expressions::emitter::Emitter;
use ec_expressions::literals::Literals;
use ec_expressions::rows::{bare, rest};
use ec_expressions::tables::Tables;
use ec_meaning::types::{kind_of, number_of};
use ec_types::conform::static_type::StaticType;
use ec_world::stop::Stop;
use std::alloc::{AllocError, Global};

/// The code of an operation of an object whose class captures so many names. The error is want of memory, a number of more
/// than 31 bits, or one of a variable, a field, a constant, a literal, a name, a type, a condition, a count of operands or
/// a distance of more than 32.
pub fn operation_ops<'a>(
    alloc: Global,
    tables: &'a Tables<'a>,
    captured: usize,
    literals: &'a Literals,
    o: &'a Operation,
) -> Result<Seq<Op>, AllocError>
    ensures { IfOk result (λ ops. ops ≡ spec.operation_ops (source_of tables.now.program.now) captured literals.now o.now) }
{
    let emitter = Emitter {
        tables,
        captured,
        types: o.variables.as_slice(),
        literals,
    };
    let mut out = Backward::new(alloc);
    leave(o, &mut out)?;
    block(&emitter, &o.block, o, 0, &mut out)?;
    reset_from(&emitter, o.variables.as_slice(), o.parameters, &mut out)?;
    bare(&mut out, Stop::Entry)?;
    out.into_ops()
}

/// The code of the program's own operation: each constant in turn. The error is that of an operation.
pub fn program_ops<'a>(
    alloc: Global,
    tables: &'a Tables<'a>,
    literals: &'a Literals,
) -> Result<Seq<Op>, AllocError>
    ensures { IfOk result (λ ops. ops ≡ spec.program_ops (source_of tables.now.program.now) literals.now) }
{
    let emitter = own_emitter(tables, literals);
    let mut out = Backward::new(alloc);
    bare(&mut out, Stop::End)?;
    give_constants(
        &emitter,
        tables.program.core().constants.as_slice(),
        &mut out,
    )?;
    bare(&mut out, Stop::Entry)?;
    out.into_ops()
}

/// What the code of the program's own operation is made of: it has no variables, and no class.
fn own_emitter<'a>(tables: &'a Tables<'a>, literals: &'a Literals) -> Emitter<'a>
    ensures source { source_by result ≡ source_of tables.now.program.now }
    ensures captured { result.captured ≡ 0 }
    ensures types { result.types.now ≡ [] }
    ensures literals { result.literals.now ≡ literals.now }
{
    Emitter {
        tables,
        captured: 0,
        types: &[],
        literals,
    }
}

/// The variables from one on get the defaults of their types.
fn reset_from(
    m: &Emitter<'_>,
    types: &[StaticType],
    from: usize,
    out: &mut Backward,
) -> Result<(), AllocError>
    ensures { OnOk result (out.new ≡ emitting.defaults_onto m.now from (drop from types.now) out.old) }
{
    if types.len() < from {
        return Ok(());
    }
    for n in (from..types.len()).rev() {
        reset(m, n, kind_of(types[n]), out)?;
    }
    Ok(())
}

/// Constants get their values.
fn give_constants(
    m: &Emitter<'_>,
    constants: &[Constant],
    out: &mut Backward,
) -> Result<(), AllocError>
    ensures { OnOk result (out.new ≡ emitting.constants_onto m.now 0 constants.now out.old) }
{
    for n in (0..constants.len()).rev() {
        let index = number_of(n)?;
        rest(out, Stop::Global { index }, 0, 1, None)?;
        m.expression(&constants[n].value, 0, out)?;
    }
    Ok(())
}
