//! The words of a code that stay.
ghost use Rattle.std.specs.Prelude.{◌≡◌, ◌<◌, ◌≤◌, ℕ, length, slice_index, IfOk, false};
ghost use Rattle.ec_machine_code.specs.Speaks.{words_end};
ghost use Rattle.mips_delay.specs.Choice.{set_at};
ghost use Rattle.mips_delay.specs.Places.{IsKept, drops, place};
ghost use Rattle.mips_waits.specs.Words.{IsWordFor};

use ec_base::list::Seq;
use mips_delay::moves::Moves;
use mips_delay::words::moved;
use std::alloc::{AllocError, Global};

/// The words of a code that stay, each where it goes.
pub(crate) fn put_words(alloc: Global, words: &[u32], moves: &Moves) -> Result<Seq<u32>, AllocError>
    requires few { length words.now ≤ words_end }
    requires long { length words.now ≡ length moves.now.fills.items }
    ensures long { IfOk result (λ new. length new ≡ place (set_at moves.now.fills.items) (length words.now)) }
    ensures each { IfOk result (λ new. (i : ℕ) → i < length words.now → drops (set_at moves.now.fills.items) i ≡ false →
        IsKept (set_at moves.now.fills.items) i (slice_index words.now i)
        (slice_index new (place (set_at moves.now.fills.items) i))) }
{
    let mut new = Seq::new(alloc);
    for i in 0..words.len() {
        if let Some(word) = word_for(words, moves, i) {
            new.push(word)?;
        }
    }
    Ok(new)
}

/// What stands where word i went; nothing for a no-op that goes.
fn word_for(words: &[u32], moves: &Moves, i: usize) -> Option<u32>
    requires there { i < length words.now }
    requires few { length words.now ≤ words_end }
    requires long { length words.now ≡ length moves.now.fills.items }
    ensures { IsWordFor words.now (set_at moves.now.fills.items) i result }
{
    if moves.drops(i) {
        return None;
    }
    Some(moved(words[i], moves, i, moves.place(i)))
}
