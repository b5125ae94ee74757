//! Counts of steps.
ghost use Rattle.std.specs.Prelude.{◌≡◌, ◌+◌, ◌-◌, IfOk, length};

use ec_expressions::backward::Backward;
use std::alloc::AllocError;

/// How many steps came since there were so many.
pub(crate) fn since(end: usize, out: &Backward) -> usize
    ensures { result ≡ length out.now - end }
{
    out.len().saturating_sub(end)
}

/// The sum of two counts. The error is one of more than 64 bits.
pub(crate) fn sum(a: usize, b: usize) -> Result<usize, AllocError>
    ensures { IfOk result (λ n. n ≡ a + b) }
{
    match a.checked_add(b) {
        Some(n) => Ok(n),
        None => Err(AllocError),
    }
}
