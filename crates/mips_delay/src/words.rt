//! The words of a code with its slots filled.
ghost use Rattle.std.specs.Prelude.{◌≡◌, ◌+◌, ◌<◌, ◌≤◌, ℕ, length, slice_index, IfOk, false, true};
ghost use Rattle.ec_machine_code.specs.Speaks.{words_end};
ghost use Rattle.ec_target.specs.Code.{pc_of};
ghost use Rattle.mips_delay.specs.Choice.{CanLead, IsMoved, IsWordFor, LeadAlong, Stands, set_at};
ghost use Rattle.mips_delay.specs.Places.{drops, moved_to, place};
ghost use Rattle.mips_delay.specs.Swap.{is_turn, turned_to};
ghost use Rattle.mips_isa.specs.Words.{word_of};
ghost use Rattle.mips_isa.specs.declared.instr.Instr.{Instr};

use crate::branches::{leading, turned_to};
use crate::landings::CODE_BASE;
use crate::moves::Moves;
use ec_base::list::Seq;
use mips_isa::word::{decode, encode};
use std::alloc::{AllocError, Global};

/// The words of a code, each where it goes.
pub(crate) fn put_words(alloc: Global, words: &[u32], moves: &Moves) -> Result<Seq<u32>, AllocError>
    requires long { length words.now ≡ length moves.now.fills.items }
    requires along { LeadAlong words.now (set_at moves.now.fills.items) }
    ensures long { IfOk result (λ new. length new ≡ place (set_at moves.now.fills.items) (length words.now)) }
    ensures each { IfOk result (λ new. (i : ℕ) → i < length words.now → drops (set_at moves.now.fills.items) i ≡ false →
        Stands words.now (set_at moves.now.fills.items) i (slice_index new (place (set_at moves.now.fills.items) i))) }
{
    let mut new = Seq::new(alloc);
    for i in 0..words.len() {
        if let Some(word) = word_for(words, moves, i) {
            new.push(word)?;
        }
    }
    Ok(new)
}

/// What stands where word i went; nothing for a no-op that goes.
fn word_for(words: &[u32], moves: &Moves, i: usize) -> Option<u32>
    requires there { i < length words.now }
    requires long { length words.now ≡ length moves.now.fills.items }
    requires along { LeadAlong words.now (set_at moves.now.fills.items) }
    ensures { IsWordFor words.now (set_at moves.now.fills.items) i result }
{
    if moves.drops(i) {
        return None;
    }
    if moves.fills(i) {
        return Some(moved(words[i + 1], moves, i + 1, moves.place(i)));
    }
    if i > 0 && moves.fills(i - 1) {
        return Some(words[i - 1]);
    }
    Some(moved(words[i], moves, i, moves.place(i)))
}

/// A word that goes from one place to another: a jump or a branch leads along.
pub fn moved(word: u32, moves: &Moves, from: usize, to: u32) -> u32
    requires low { from < length moves.now.fills.items }
    requires small { to ≤ words_end }
    requires can { (b : Instr) → word_of b ≡ word → is_turn b ≡ true →
        CanLead b (pc_of to) (moved_to (set_at moves.now.fills.items) (turned_to b (pc_of from))) }
    ensures { IsMoved (set_at moves.now.fills.items) from to word result }
{
    match decode(word) {
        Some(instr) => match turned_to(instr, CODE_BASE + 4 * (from as u32)) {
            Some(goal) => encode(leading(instr, CODE_BASE + 4 * to, moves.moved_to(goal))),
            None => word,
        },
        None => word,
    }
}
