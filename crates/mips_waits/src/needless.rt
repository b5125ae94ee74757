//! Which no-ops behind reads of HI and LO and behind loads nothing needs.
ghost use Rattle.std.specs.Prelude.{◌≡◌, ◌<◌, ◌≤◌, ℕ, length, IfNone, IfOk, IfSome, false, true};
ghost use Rattle.ec_machine_code.specs.Speaks.{words_end};
ghost use Rattle.mips_delay.specs.Choice.{set_at};
ghost use Rattle.mips_delay.specs.Fillable.{GoesTo, StandsAt, is_load};
ghost use Rattle.mips_waits.specs.Waits.{BehindLoad, BehindRead, IsNeedless, IsOfRead, LeavesHiLo, LeavesRegister, WritesNeither};
ghost use Rattle.mips_isa.specs.Words.{word_of};
ghost use Rattle.mips_isa.specs.declared.instr.Instr.{Instr};
ghost use Rattle.mips_isa.specs.declared.instr.Instr.TheVariants.{Syscall};
ghost use Rattle.mips_machine.specs.Hazards.{is_stop, loads, reads_hilo, sets_hilo, touches};

use mips_delay::landings::landings;
use mips_isa::instr::Instr;
use mips_isa::word::decode;
use mips_machine::flow::touches;
use std::alloc::{AllocError, Global};

/// The word of a stop.
const STOP: u32 = 0x0000_000C;

// ---- one word

/// It is a read of HI or LO.
fn reads(word: u32) -> bool
    ensures yes { result ≡ true → (x : Instr) × (word_of x ≡ word) × (reads_hilo x ≡ true) }
    ensures no { (x : Instr) → word_of x ≡ word → reads_hilo x ≡ true → result ≡ true }
{
    match decode(word) {
        Some(Instr::ReadHiLo { .. }) => true,
        _ => false,
    }
}

/// It writes HI or LO.
fn writes(word: u32) -> bool
    ensures yes { result ≡ true → (x : Instr) × (word_of x ≡ word) × (sets_hilo x ≡ true) }
    ensures no { (x : Instr) → word_of x ≡ word → sets_hilo x ≡ true → result ≡ true }
{
    match decode(word) {
        Some(Instr::OnHiLo { .. } | Instr::WriteHiLo { .. }) => true,
        _ => false,
    }
}

/// The register that it loads.
fn loaded(word: u32) -> Option<u32>
    ensures some { IfSome result (λ r. (x : Instr) × (word_of x ≡ word) × (is_load x ≡ true) × (loads x ≡ r)) }
    ensures none { IfNone result ((x : Instr) → word_of x ≡ word → is_load x ≡ false) }
{
    match decode(word) {
        Some(Instr::LoadFrom { rt, .. }) => Some(rt.number),
        _ => None,
    }
}

/// It neither reads nor writes a register, and is no stop.
fn leaves(word: u32, register: u32) -> bool
    ensures yes { result ≡ true → (x : Instr) → word_of x ≡ word → (touches x register ≡ false) × (is_stop x ≡ false) }
    ensures no { ((x : Instr) → word_of x ≡ word → (touches x register ≡ false) × (is_stop x ≡ false)) → result ≡ true }
{
    match decode(word) {
        Some(Instr::Syscall) => false,
        Some(instr) => !touches(instr, register),
        None => true,
    }
}

// ---- what comes next

/// What stands at word i, if anything does, writes neither HI nor LO.
fn writes_neither(words: &[u32], i: usize) -> bool
    ensures yes { result ≡ true → WritesNeither words.now i }
    ensures no { WritesNeither words.now i → result ≡ true }
{
    i >= words.len() || !writes(words[i])
}

/// A stop stands at word i.
fn stops(words: &[u32], i: usize) -> bool
    ensures yes { result ≡ true → StandsAt words.now i Syscall }
    ensures no { StandsAt words.now i Syscall → result ≡ true }
{
    i < words.len() && words[i] == STOP
}

/// The two instructions from word i on leave HI and LO alone; the second may be anything behind a stop.
fn leaves_hilo(words: &[u32], i: usize) -> bool
    requires small { i ≤ words_end }
    ensures yes { result ≡ true → LeavesHiLo words.now i }
    ensures no { LeavesHiLo words.now i → result ≡ true }
{
    if !writes_neither(words, i) {
        return false;
    }
    stops(words, i) || writes_neither(words, i + 1)
}

/// What stands at word i, if anything does, neither reads nor writes a register, and is no stop.
fn leaves_register(words: &[u32], i: usize, register: u32) -> bool
    ensures yes { result ≡ true → LeavesRegister words.now i register }
    ensures no { LeavesRegister words.now i register → result ≡ true }
{
    i >= words.len() || leaves(words[i], register)
}

// ---- places

/// HI or LO is read at word j + 1, and nothing needs the two no-ops behind.
fn is_behind_read(words: &[u32], landed: &[bool], j: usize) -> bool
    requires there { j < length words.now }
    requires few { length words.now ≤ words_end }
    requires long { length landed.now ≡ length words.now }
    requires led { (k : ℕ) → set_at landed.now k ≡ true → GoesTo words.now k }
    requires unled { (k : ℕ) → k < length words.now → GoesTo words.now k → set_at landed.now k ≡ true }
    ensures yes { result ≡ true → BehindRead words.now j }
    ensures no { BehindRead words.now j → result ≡ true }
{
    if words.len() - j < 4 {
        return false;
    }
    if landed[j + 2] || landed[j + 3] {
        return false;
    }
    if words[j + 2] != 0 || words[j + 3] != 0 || !reads(words[j + 1]) {
        return false;
    }
    leaves_hilo(words, j + 4)
}

/// Word j + 2 is a no-op that nothing needs, the first or the second behind a read.
fn is_of_read(words: &[u32], landed: &[bool], j: usize) -> bool
    requires there { j < length words.now }
    requires few { length words.now ≤ words_end }
    requires long { length landed.now ≡ length words.now }
    requires led { (k : ℕ) → set_at landed.now k ≡ true → GoesTo words.now k }
    requires unled { (k : ℕ) → k < length words.now → GoesTo words.now k → set_at landed.now k ≡ true }
    ensures yes { result ≡ true → IsOfRead words.now j }
    ensures no { IsOfRead words.now j → result ≡ true }
{
    if is_behind_read(words, landed, j) {
        return true;
    }
    j > 0 && is_behind_read(words, landed, j - 1)
}

/// A register is loaded at word j + 1, and nothing needs the no-op behind.
fn is_behind_load(words: &[u32], landed: &[bool], j: usize) -> bool
    requires there { j < length words.now }
    requires few { length words.now ≤ words_end }
    requires long { length landed.now ≡ length words.now }
    requires led { (k : ℕ) → set_at landed.now k ≡ true → GoesTo words.now k }
    requires unled { (k : ℕ) → k < length words.now → GoesTo words.now k → set_at landed.now k ≡ true }
    ensures yes { result ≡ true → BehindLoad words.now j }
    ensures no { BehindLoad words.now j → result ≡ true }
{
    if words.len() - j < 3 {
        return false;
    }
    if landed[j + 2] || words[j + 2] != 0 || !writes_neither(words, j + 3) {
        return false;
    }
    match loaded(words[j + 1]) {
        Some(register) => leaves_register(words, j + 3, register),
        None => false,
    }
}

/// For each word of a code, whether the second word behind it is a no-op that nothing needs.
pub(crate) fn needless(alloc: Global, words: &[u32]) -> Result<Vec<bool>, AllocError>
    requires few { length words.now ≤ words_end }
    ensures long { IfOk result (λ skips. length skips.items ≡ length words.now) }
    ensures yes { IfOk result (λ skips. (j : ℕ) → set_at skips.items j ≡ true → IsNeedless words.now j) }
    ensures no { IfOk result (λ skips. (j : ℕ) → IsNeedless words.now j → set_at skips.items j ≡ true) }
{
    let landed = landings(alloc, words)?;
    let mut skips = Vec::new(alloc);
    for j in 0..words.len() {
        skips.push(is_needless(words, landed.as_slice(), j))?;
    }
    Ok(skips)
}

/// Word j + 2 is a no-op that nothing needs.
fn is_needless(words: &[u32], landed: &[bool], j: usize) -> bool
    requires there { j < length words.now }
    requires few { length words.now ≤ words_end }
    requires long { length landed.now ≡ length words.now }
    requires led { (k : ℕ) → set_at landed.now k ≡ true → GoesTo words.now k }
    requires unled { (k : ℕ) → k < length words.now → GoesTo words.now k → set_at landed.now k ≡ true }
    ensures yes { result ≡ true → IsNeedless words.now j }
    ensures no { IsNeedless words.now j → result ≡ true }
{
    is_of_read(words, landed, j) || is_behind_load(words, landed, j)
}
