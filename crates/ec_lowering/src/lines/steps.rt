//! What steps write, and of which types.
ghost use Rattle.std.specs.Prelude.{◌≡◌, OnOk};
ghost use Rattle.ec_lowering.specs.Sites.{around_by};
ghost use Rattle.ec_emission.specs.Types as spec;

use crate::lines::site::Site;
use crate::lines::temporaries::put_type;
use crate::lines::types::{constant_type, field_type, own_type, type_at};
use ec_base::list::Seq;
use ec_code::code::{Op, Operand, Variable};
use ec_code::steps::written;
use ec_types::conform::static_type::{Plain, StaticType};
use std::alloc::AllocError;

/// The type of a variable, by those of the temporaries.
pub(crate) fn variable_type(
    site: &Site<'_>,
    temporaries: &Seq<StaticType>,
    x: Variable,
) -> StaticType
    ensures { result ≡ spec.variable_type (around_by site.now) temporaries.now x }
{
    match x {
        Variable::Named(n) => type_at(site.variables, n as usize),
        Variable::Temporary(d) => type_at(temporaries.as_slice(), d as usize),
    }
}

/// The types of the temporaries behind a step. The error is want of memory.
pub(crate) fn put_written(
    site: &Site<'_>,
    temporaries: &mut Seq<StaticType>,
    op: &Op,
) -> Result<(), AllocError>
    ensures { OnOk result (temporaries.new ≡ spec.behind (around_by site.now) temporaries.old op.now) }
{
    let of = written_type(site, temporaries, op);
    match written(op) {
        Some(Variable::Temporary(d)) => put_type(temporaries, d as usize, of),
        Some(Variable::Named(_)) | None => Ok(()),
    }
}

/// The type of what a step writes; unknown where it writes nothing.
fn written_type(site: &Site<'_>, temporaries: &Seq<StaticType>, op: &Op) -> StaticType
    ensures { result ≡ spec.written_type (around_by site.now) temporaries.now op.now }
{
    match op {
        Op::Copy { from, .. } => operand_type(site, temporaries, *from),
        Op::Literal { .. } => StaticType::Plain(Plain::String),
        Op::Itself { .. } => own_type(site),
        Op::Field { field, .. } => field_type(site, *field as usize),
        Op::Constant { index, .. } => constant_type(site, *index as usize),
        Op::Compute { .. } => StaticType::Plain(Plain::Integer),
        Op::Decide { .. } => StaticType::Plain(Plain::Boolean),
        Op::Rest(row) => given_type(row.gives),
        Op::SetField { .. } | Op::Branch { .. } | Op::Jump { .. } | Op::Again { .. } => {
            StaticType::Unknown
        }
    }
}

fn operand_type(site: &Site<'_>, temporaries: &Seq<StaticType>, operand: Operand) -> StaticType
    ensures { result ≡ spec.operand_type (around_by site.now) temporaries.now operand }
{
    match operand {
        Operand::Of(x) => variable_type(site, temporaries, x),
        Operand::Number(_) => StaticType::Plain(Plain::Integer),
        Operand::Truth(_) => StaticType::Plain(Plain::Boolean),
        Operand::Nil => StaticType::Nil,
    }
}

/// The type of what a stop gives.
fn given_type(gives: Option<StaticType>) -> StaticType
    ensures { result ≡ spec.given_type gives }
{
    match gives {
        Some(of) => of,
        None => StaticType::Unknown,
    }
}
