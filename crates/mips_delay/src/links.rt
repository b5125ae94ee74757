//! Jumps whose targets or links are values.
ghost use Rattle.std.specs.Prelude.{◌≡◌, true, false};
ghost use Rattle.mips_delay.specs.Fillable.{HasNoLinks, is_by_value};
ghost use Rattle.mips_isa.specs.Words.{word_of};
ghost use Rattle.mips_isa.specs.declared.instr.Instr.{Instr};

use mips_isa::instr::Instr;
use mips_isa::word::decode;

/// Whether some word of a code is JAL, JR or JALR.
pub fn has_links(words: &[u32]) -> bool
    ensures some { result ≡ true → HasNoLinks words.now → ⊥ }
    ensures none { result ≡ false → HasNoLinks words.now }
{
    for i in 0..words.len() {
        if is_link(words[i]) {
            return true;
        }
    }
    false
}

/// The word is JAL, JR or JALR.
fn is_link(word: u32) -> bool
    ensures yes { result ≡ true → (x : Instr) × (word_of x ≡ word) × (is_by_value x ≡ true) }
    ensures no { result ≡ false → (x : Instr) → word_of x ≡ word → is_by_value x ≡ false }
{
    match decode(word) {
        Some(Instr::Jal { .. } | Instr::Jr { .. } | Instr::Jalr { .. }) => true,
        _ => false,
    }
}
