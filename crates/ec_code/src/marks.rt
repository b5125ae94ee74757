//! The places at which one variable is live.
ghost use Rattle.std.specs.Prelude.{◌≡◌, length, IfOk};
ghost use Rattle.ec_code.specs.Marks.{Swept, AreLive};

use crate::code::{Op, Variable};
use crate::steps::is_missing;
use ec_base::list::Seq;
use std::alloc::{AllocError, Global};

/// The places at which a variable is live are marked. The error is want of memory.
pub(crate) fn live_places(
    alloc: Global,
    code: &Seq<Op>,
    x: Variable,
) -> Result<Seq<bool>, AllocError>
    ensures { IfOk result (λ marks. AreLive code.now x marks) }
{
    let mut marks = vec![in alloc; false; code.len()]?;
    'sweeping: loop {
        if !sweep(code, x, &mut marks) {
            return Ok(Seq::from_vec(marks));
        }
    }
}

/// From the last place to the first, marks each at which the variable is live by what is marked, and says whether there was one.
fn sweep(code: &Seq<Op>, x: Variable, marks: &mut Vec<bool>) -> bool
    requires { length marks.old.items ≡ length code.now }
    ensures { Swept code.now x marks.old.items 0 result marks.new.items }
{
    let mut found = false;
    for q in (0..code.len()).rev() {
        if is_missing(code.at(q), x, q, marks.as_slice()) {
            marks[q] = true;
            found = true;
        }
    }
    found
}
