//! Where the jumps and branches of a code go.
ghost use Rattle.std.specs.Prelude.{◌≡◌, ◌<◌, ◌≤◌, ◌⊎◌, ℕ, length, IfOk, true};
ghost use Rattle.ec_machine_code.specs.Speaks.{words_end};
ghost use Rattle.ec_target.specs.Code.{pc_of};
ghost use Rattle.mips_delay.specs.Choice.{LeadsTo, set_at};
ghost use Rattle.mips_delay.specs.Fillable.{GoesTo};

use crate::branches::turned_to;
use mips_isa::word::decode;
use std::alloc::{AllocError, Global};

/// Where the code starts.
pub(crate) const CODE_BASE: u32 = 0x0040_0000;

/// For each word of a code, whether a jump or a branch goes there.
pub fn landings(alloc: Global, words: &[u32]) -> Result<Vec<bool>, AllocError>
    requires few { length words.now ≤ words_end }
    ensures long { IfOk result (λ landed. length landed.items ≡ length words.now) }
    ensures yes { IfOk result (λ landed. (k : ℕ) → set_at landed.items k ≡ true → GoesTo words.now k) }
    ensures no { IfOk result (λ landed. (k : ℕ) → k < length words.now → GoesTo words.now k → set_at landed.items k ≡ true) }
{
    let mut landed = vec![in alloc; false; words.len()]?;
    for i in 0..words.len() {
        land(&mut landed, words[i], CODE_BASE + 4 * (i as u32));
    }
    Ok(landed)
}

/// The word to which a word at an address leads is marked.
fn land(landed: &mut Vec<bool>, word: u32, at: u32)
    ensures long { length landed.new.items ≡ length landed.old.items }
    ensures yes { (k : ℕ) → set_at landed.new.items k ≡ true → (set_at landed.old.items k ≡ true) ⊎ LeadsTo word at k }
    ensures old { (k : ℕ) → set_at landed.old.items k ≡ true → set_at landed.new.items k ≡ true }
    ensures no { (k : ℕ) → k < length landed.old.items → LeadsTo word at k → set_at landed.new.items k ≡ true }
{
    if let Some(instr) = decode(word) {
        if let Some(goal) = turned_to(instr, at) {
            mark(landed, goal);
        }
    }
}

/// The word at an address is marked.
#[tactic(auto, using(crate::proofs::Marks::set_same, crate::proofs::Marks::set_is, crate::proofs::Marks::set_stays))]
fn mark(landed: &mut Vec<bool>, address: u32)
    ensures long { length landed.new.items ≡ length landed.old.items }
    ensures yes { (k : ℕ) → set_at landed.new.items k ≡ true → (set_at landed.old.items k ≡ true) ⊎ (address ≡ pc_of k) }
    ensures old { (k : ℕ) → set_at landed.old.items k ≡ true → set_at landed.new.items k ≡ true }
    ensures no { (k : ℕ) → k < length landed.old.items → address ≡ pc_of k → set_at landed.new.items k ≡ true }
{
    if address >= CODE_BASE && address % 4 == 0 {
        let k = ((address - CODE_BASE) / 4) as usize;
        if k < landed.len() {
            landed[k] = true;
        }
    }
}
