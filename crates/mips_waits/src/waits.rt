//! Needless no-ops behind reads of HI and LO dropped.
ghost use Rattle.std.specs.Prelude.{◌≤◌, ℕ, Bool, IfOk, length};
ghost use Rattle.ec_machine_code.specs.Speaks.{words_end};
ghost use Rattle.mips_delay.specs.Fill.{KeepsFaithful, TakesNoMoreSteps};
ghost use Rattle.mips_delay.specs.Fillable.{HasNoLinks};
ghost use Rattle.mips_delay.specs.Fitting.{KeepsFits};
ghost use Rattle.mips_waits.specs.Dropped.{Dropped};

use crate::needless::needless;
use crate::words::put_words;
use ec_machine_code::code::Code;
use mips_delay::moves::Moves;
use mips_delay::operations::put_operations;
use std::alloc::{AllocError, Global};

/// Drops the two no-ops behind each read of HI or LO behind which neither of the next two instructions writes HI or LO, and the one behind
/// each load behind which the next instruction doesn't touch the register, write HI or LO, or stop; the targets of jumps and the addresses
/// of stops move along. The error is want of memory.
pub fn drop_waits(alloc: Global, code: &Code) -> Result<Code, AllocError>
    requires links { HasNoLinks code.now.words }
    requires few { length code.now.words ≤ words_end }
    ensures dropped { IfOk result (λ new. (skips : ℕ → Bool) × Dropped code.now new skips) }
    ensures few_words { IfOk result (λ new. length new.words ≤ length code.now.words) }
    ensures keeps { IfOk result (λ new. KeepsFaithful code.now new) }
    ensures fits { IfOk result (λ new. KeepsFits code.now new) }
    ensures few_steps { IfOk result (λ new. TakesNoMoreSteps code.now new) }
    ensures links { IfOk result (λ new. HasNoLinks new.words) }
{
    let skips = needless(alloc, code.words.as_slice())?;
    let moves = Moves::of(alloc, skips)?;
    let words = put_words(alloc, code.words.as_slice(), &moves)?;
    let operations = put_operations(alloc, &code.operations, &moves)?;
    Ok(Code { words, operations })
}

#[cfg(test)]
mod tests;
