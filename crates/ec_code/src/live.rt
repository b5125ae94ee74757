//! The variables that are live at each place.
ghost use Rattle.std.specs.Prelude.{◌≡◌, ◌≤◌, ◌^◌, ℕ, List, length, slice_get, IfOk};
ghost use Rattle.ec_code.specs.declared.code.Variable.{Variable};
ghost use Rattle.ec_code.specs.Live.{IsLiveList};
ghost use Rattle.ec_code.specs.Listed.{listed};

use crate::code::{Op, Variable};
use crate::extent::extent_of;
use crate::rows::{Kind, add_marked, rows_of};
use ec_base::list::Seq;
use std::alloc::{AllocError, Global};

/// For each place of the code, from 0, the variables that are live there: those that some way from there reads before it writes
/// them; named ones by rising number, then temporaries by rising number. The error is want of memory.
///
/// The time grows with the size of the code times the largest number of a variable that it reads, and the memory too: a truth
/// for each place and each number up to that one.
pub fn live_lists(alloc: Global, code: &Seq<Op>) -> Result<Seq<Seq<Variable>>, AllocError>
    ensures count { IfOk result (λ lists. length lists ≡ length code.now) }
    ensures live { IfOk result
        (λ lists. (q : ℕ) (xs : List Variable) → slice_get lists q ≡ Some xs → IsLiveList code.now q xs) }
    ensures only { IfOk result
        (λ lists. (q : ℕ) (xs ys : List Variable) → slice_get lists q ≡ Some xs → IsLiveList code.now q ys → xs ≡ ys) }
{
    let extent = extent_of(code);
    let named = rows_of(alloc, code, Kind::Named, extent.named)?;
    let temporaries = rows_of(alloc, code, Kind::Temporary, extent.temporaries)?;
    let mut lists = Seq::new(alloc);
    for q in 0..code.len() {
        lists.push(live_list(alloc, &named, &temporaries, q)?)?;
    }
    Ok(lists)
}

/// The variables that are marked at a place. The error is want of memory.
fn live_list(
    alloc: Global,
    named: &Seq<Seq<bool>>,
    temporaries: &Seq<Seq<bool>>,
    q: usize,
) -> Result<Seq<Variable>, AllocError>
    requires few { length named.now ≤ 2 ^ 32 }
    requires few_temporaries { length temporaries.now ≤ 2 ^ 32 }
    ensures { IfOk result (λ list. list ≡ listed named.now temporaries.now q) }
{
    let mut list = Seq::new(alloc);
    add_marked(Kind::Named, named, q, &mut list)?;
    add_marked(Kind::Temporary, temporaries, q, &mut list)?;
    Ok(list)
}
