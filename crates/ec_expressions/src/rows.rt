//! The stops that code is made of.
ghost use Rattle.std.specs.Prelude.{◌≡◌, suc, ◌+◌, ◌∷◌, IfOk, OnOk};
ghost use Rattle.ec_emission.specs.Rows as spec;

use crate::backward::Backward;
use ec_base::list::Seq;
use ec_code::code::{Op, StopRow, Variable};
use ec_types::conform::static_type::StaticType;
use ec_world::process::Cause;
use ec_world::stop::Stop;
use std::alloc::{AllocError, Global};

/// One more than a number of temporaries. The error is one of more than 32 bits.
pub(crate) fn above(h: u32) -> Result<u32, AllocError>
    ensures { IfOk result (λ n. n ≡ suc h) }
{
    match h.checked_add(1) {
        Some(n) => Ok(n),
        None => Err(AllocError),
    }
}

/// So many more than a number of temporaries. The error is one of more than 32 bits.
pub(crate) fn further(h: u32, count: u32) -> Result<u32, AllocError>
    ensures { IfOk result (λ n. n ≡ h + count) }
{
    match h.checked_add(count) {
        Some(n) => Ok(n),
        None => Err(AllocError),
    }
}

/// So many temporaries, from one on. The error is want of memory, or a number of more than 32 bits.
#[tactic(auto, using(crate::proofs::Temporaries::one_more))]
fn temporaries(alloc: Global, from: u32, count: u32) -> Result<Seq<Variable>, AllocError>
    ensures { IfOk result (λ xs. xs ≡ spec.temporaries from count) }
{
    let mut variables = Seq::new(alloc);
    for k in 0..count {
        variables.push(Variable::Temporary(further(from, k)?))?;
    }
    Ok(variables)
}

fn into_if(gives: Option<StaticType>, h: u32) -> Option<Variable>
    ensures { result ≡ spec.into_if gives h }
{
    match gives {
        Some(_) => Some(Variable::Temporary(h)),
        None => None,
    }
}

/// A stop before the code so far, which takes the values in so many temporaries, from one on, and may give a value of a
/// type. The error is want of memory, or a temporary of more than 32 bits.
pub fn rest(
    out: &mut Backward,
    stop: Stop,
    h: u32,
    takes: u32,
    gives: Option<StaticType>,
) -> Result<(), AllocError>
    ensures { OnOk result (out.new ≡ Op.Rest (spec.rest_row stop h takes gives) ∷ out.old) }
{
    let operands = temporaries(out.allocator(), h, takes)?;
    out.before(Op::Rest(StopRow {
        stop,
        on_itself: false,
        operands,
        gives,
        into: into_if(gives, h),
    }))
}

/// The same on the own object, which is in the first of these temporaries.
pub(crate) fn own_rest(
    out: &mut Backward,
    stop: Stop,
    h: u32,
    takes: u32,
    gives: Option<StaticType>,
) -> Result<(), AllocError>
    ensures { OnOk result (out.new ≡ Op.Rest (spec.own_row stop h takes gives) ∷ out.old) }
{
    let own_and_others = temporaries(out.allocator(), h, takes)?;
    out.before(Op::Rest(StopRow {
        stop,
        on_itself: true,
        operands: own_and_others,
        gives,
        into: into_if(gives, h),
    }))
}

/// A stop before the code so far that takes nothing and gives nothing. The error is want of memory.
pub fn bare(out: &mut Backward, stop: Stop) -> Result<(), AllocError>
    ensures { OnOk result (out.new ≡ Op.Rest (spec.bare_row stop) ∷ out.old) }
{
    let operands = Seq::new(out.allocator());
    out.before(Op::Rest(StopRow {
        stop,
        on_itself: false,
        operands,
        gives: None,
        into: None,
    }))
}

/// The stop of a failure. The error is want of memory.
pub fn fail(out: &mut Backward, why: Cause, line: u32) -> Result<(), AllocError>
    ensures { OnOk result (out.new ≡ Op.Rest (spec.fail_row why line) ∷ out.old) }
{
    bare(out, Stop::Fail { cause: why, line })
}

/// The end of an operation that gives a named variable back. The error is want of memory.
pub fn give_back(out: &mut Backward, n: u32) -> Result<(), AllocError>
    ensures { OnOk result (out.new ≡ Op.Rest (spec.return_row n) ∷ out.old) }
{
    let mut operands = Seq::new(out.allocator());
    operands.push(Variable::Named(n))?;
    out.before(Op::Rest(StopRow {
        stop: Stop::Return { gives_self: false },
        on_itself: false,
        operands,
        gives: None,
        into: None,
    }))
}
