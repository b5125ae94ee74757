//! The marks of all variables of a kind.
ghost use Rattle.std.specs.Prelude.{◌≡◌, ◌≤◌, ◌^◌, ◌++◌, length, IfOk, OnOk};
ghost use Rattle.ec_code.specs.Listed.{variable_of, AreRows, marked_at};

use crate::code::{Op, Variable};
use crate::marks::live_places;
use crate::steps::is_marked;
use ec_base::list::Seq;
use std::alloc::{AllocError, Global};

/// The two kinds of variables.
#[derive(Clone, Copy)]
pub(crate) enum Kind {
    Named,
    Temporary,
}

fn variable_of(kind: Kind, n: u32) -> Variable
    ensures { result ≡ variable_of kind n }
{
    match kind {
        Kind::Named => Variable::Named(n),
        Kind::Temporary => Variable::Temporary(n),
    }
}

/// The marks of so many variables of a kind, from number 0: at most 2^32. The error is want of memory.
pub(crate) fn rows_of(
    alloc: Global,
    code: &Seq<Op>,
    kind: Kind,
    count: usize,
) -> Result<Seq<Seq<bool>>, AllocError>
    requires { count ≤ 2 ^ 32 }
    ensures all { IfOk result (λ rows. AreRows code.now kind 0 rows) }
    ensures count { IfOk result (λ rows. length rows ≡ count) }
{
    let mut rows = Seq::new(alloc);
    for n in 0..count {
        rows.push(live_places(alloc, code, variable_of(kind, n as u32))?)?;
    }
    Ok(rows)
}

/// Adds the variables of a kind that are marked at a place, by rising number. The error is want of memory.
pub(crate) fn add_marked(
    kind: Kind,
    rows: &Seq<Seq<bool>>,
    q: usize,
    list: &mut Seq<Variable>,
) -> Result<(), AllocError>
    requires { length rows.now ≤ 2 ^ 32 }
    ensures { OnOk result (list.new ≡ list.old ++ marked_at kind 0 rows.now q) }
{
    for n in 0..rows.len() {
        if is_marked(rows.at(n).as_slice(), q) {
            list.push(variable_of(kind, n as u32))?;
        }
    }
    Ok(())
}
