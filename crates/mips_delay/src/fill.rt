//! Delay slots filled.
ghost use Rattle.std.specs.Prelude.{◌≤◌, ℕ, Bool, IfOk, length};
ghost use Rattle.ec_machine_code.specs.Speaks.{words_end};
ghost use Rattle.mips_delay.specs.Fill.{Filled, KeepsFaithful, TakesNoMoreSteps};
ghost use Rattle.mips_delay.specs.Fillable.{HasNoLinks, HasNoneLeft};

use crate::moves::moves_of;
use crate::operations::put_operations;
use crate::words::put_words;
use ec_machine_code::code::Code;
use std::alloc::{AllocError, Global};

/// Moves instructions into the delay slots of the branches behind them and drops the no-ops there; the targets of jumps and the addresses
/// of stops move along. The error is want of memory.
pub fn fill(alloc: Global, code: &Code) -> Result<Code, AllocError>
    requires links { HasNoLinks code.now.words }
    requires few { length code.now.words ≤ words_end }
    ensures filled { IfOk result (λ new. (fills : ℕ → Bool) × Filled code.now new fills) }
    ensures none_left { IfOk result (λ new. HasNoneLeft new.words) }
    ensures few_words { IfOk result (λ new. length new.words ≤ length code.now.words) }
    ensures keeps { IfOk result (λ new. KeepsFaithful code.now new) }
    ensures few_steps { IfOk result (λ new. TakesNoMoreSteps code.now new) }
{
    let moves = moves_of(alloc, code.words.as_slice())?;
    let words = put_words(alloc, code.words.as_slice(), &moves)?;
    let operations = put_operations(alloc, &code.operations, &moves)?;
    Ok(Code { words, operations })
}

#[cfg(test)]
mod tests;
