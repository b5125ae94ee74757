//! The lines of code.
ghost use Rattle.std.specs.Prelude.{◌≡◌, [], length, IfOk};
ghost use Rattle.ec_lowering.specs.Sites.{around_by};
ghost use Rattle.ec_emission.specs.Lowered.{HasLines};
ghost use Rattle.ec_emission.specs.Types as spec;

use crate::lines::site::Site;
use crate::lines::steps::{put_written, variable_type};
use ec_base::list::Seq;
use ec_code::code::{Line, Live, Op, Variable};
use ec_code::live::live_lists;
use ec_types::conform::static_type::StaticType;
use std::alloc::{AllocError, Global};

/// The lines of these steps: each with the variables that are live before it, and their types. The error is want of memory.
pub(crate) fn lines_of(
    alloc: Global,
    site: &Site<'_>,
    ops: Seq<Op>,
) -> Result<Seq<Line>, AllocError>
    ensures { IfOk result (λ code. HasLines (around_by site.now) ops code) }
{
    let lists = live_lists(alloc, &ops)?;
    with_lists(alloc, site, ops, &lists)
}

/// The lines of these steps, by the variables that are live at each place.
fn with_lists(
    alloc: Global,
    site: &Site<'_>,
    ops: Seq<Op>,
    lists: &Seq<Seq<Variable>>,
) -> Result<Seq<Line>, AllocError>
    requires { length lists.now ≡ length ops }
    ensures { IfOk result (λ code. code ≡ spec.lines_of (around_by site.now) [] ops lists.now) }
{
    let mut temporaries = Seq::new(alloc);
    let mut lines = Seq::new(alloc);
    for op in ops.into_vec() {
        let live = with_types(alloc, site, &temporaries, lists.at(lines.len()))?;
        put_written(site, &mut temporaries, &op)?;
        lines.push(Line { op, live })?;
    }
    Ok(lines)
}

/// Variables with their types, by those of the temporaries.
fn with_types(
    alloc: Global,
    site: &Site<'_>,
    temporaries: &Seq<StaticType>,
    list: &Seq<Variable>,
) -> Result<Seq<Live>, AllocError>
    ensures { IfOk result (λ live. live ≡ spec.with_types (around_by site.now) temporaries.now list.now) }
{
    let mut live = Seq::from_vec(Vec::with_capacity(alloc, list.len())?);
    for x in list.as_slice() {
        live.push(Live {
            variable: *x,
            of: variable_type(site, temporaries, *x),
        })?;
    }
    Ok(live)
}
