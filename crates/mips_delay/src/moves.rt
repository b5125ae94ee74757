//! Where the words of a code go when some go away.
ghost use Rattle.std.specs.Prelude.{◌≡◌, ◌+◌, ◌<◌, ◌≤◌, ℕ, suc, length, slice_get, IfOk, Some, true, false};
ghost use Rattle.ec_machine_code.specs.Speaks.{words_end};
ghost use Rattle.mips_delay.specs.Choice.{set_at};
ghost use Rattle.mips_delay.specs.Fillable.{Fillable};
ghost use Rattle.mips_delay.specs.Places.{drops, moved_to, place};

use crate::fillable::fillable;
use crate::landings::CODE_BASE;
use std::alloc::{AllocError, Global};

/// For each word whether the second word behind it goes away, as the no-op does behind a word that goes into a slot; and where each word
/// goes, and what is behind the last.
#[derive(Drop)]
pub struct Moves {
    pub fills: Vec<bool>,
    pub places: Vec<u32>,
    ghost few: { length fills.items ≤ words_end },
    ghost long: { length places.items ≡ suc (length fills.items) },
    ghost each: { (i : ℕ) → i ≤ length fills.items → slice_get places.items i ≡ Some (place (set_at fills.items) i) },
    ghost within: { (j : ℕ) → set_at fills.items j ≡ true → suc (suc j) < length fills.items },
}

/// Where the words of a code go: each slot that can be filled is.
pub(crate) fn moves_of(alloc: Global, words: &[u32]) -> Result<Moves, AllocError>
    requires few { length words.now ≤ words_end }
    ensures long { IfOk result (λ moves. length moves.fills.items ≡ length words.now) }
    ensures yes { IfOk result (λ moves. (j : ℕ) → set_at moves.fills.items j ≡ true → Fillable words.now j) }
    ensures no { IfOk result (λ moves. (j : ℕ) → Fillable words.now j → set_at moves.fills.items j ≡ true) }
{
    let fills = fillable(alloc, words)?;
    Moves::of(alloc, fills)
}

/// Where each word goes, and what is behind the last.
fn places_of(alloc: Global, fills: &[bool]) -> Result<Vec<u32>, AllocError>
    requires few { length fills.now ≤ words_end }
    ensures long { IfOk result (λ places. length places.items ≡ suc (length fills.now)) }
    ensures each { IfOk result (λ places. (i : ℕ) → i ≤ length fills.now → slice_get places.items i ≡ Some (place (set_at fills.now) i)) }
{
    let mut places = Vec::new(alloc);
    let mut to: u32 = 0;
    places.push(to)?;
    for i in 0..fills.len() {
        if !drops(fills, i) {
            to += 1;
        }
        places.push(to)?;
    }
    Ok(places)
}

/// Word i goes away.
#[tactic(auto, using(crate::proofs::Written::drops_small, crate::proofs::Written::drops_from))]
fn drops(fills: &[bool], i: usize) -> bool
    ensures { result ≡ drops (set_at fills.now) i }
{
    if i < 2 { false } else { fills_at(fills, i - 2) }
}

/// The second word behind word j goes away; none does behind the last.
fn fills_at(fills: &[bool], j: usize) -> bool
    ensures { result ≡ set_at fills.now j }
{
    match fills.get(j) {
        Some(fill) => *fill,
        None => false,
    }
}

impl Moves {
    /// Where words go, by whether the second word behind each goes away. The error is want of memory.
    pub fn of(alloc: Global, fills: Vec<bool>) -> Result<Moves, AllocError>
        requires few { length fills.items ≤ words_end }
        requires within { (j : ℕ) → set_at fills.items j ≡ true → suc (suc j) < length fills.items }
        ensures fills { IfOk result (λ moves. moves.fills.items ≡ fills.items) }
    {
        let places = places_of(alloc, fills.as_slice())?;
        Ok(Moves { fills, places })
    }

    /// Word j goes into the slot of the branch behind it.
    pub(crate) fn fills(&self, j: usize) -> bool
        ensures { result ≡ set_at self.now.fills.items j }
    {
        fills_at(self.fills.as_slice(), j)
    }

    /// Word i goes away.
    pub fn drops(&self, i: usize) -> bool
        ensures { result ≡ drops (set_at self.now.fills.items) i }
    {
        drops(self.fills.as_slice(), i)
    }

    /// Where a word goes, or what is behind the last.
    pub fn place(&self, i: usize) -> u32
        requires there { i ≤ length self.now.fills.items }
        ensures { result ≡ place (set_at self.now.fills.items) i }
    {
        self.places[i]
    }

    /// Where any place goes, behind the last word too.
    fn any_place(&self, i: u32) -> u32
        ensures value { result ≡ place (set_at self.now.fills.items) i }
        ensures low { result ≤ i }
    {
        let many = self.fills.len() as u32;
        if i <= many {
            self.place(i as usize)
        } else {
            self.place(self.fills.len()) + (i - many)
        }
    }

    /// How many words there will be between where two places go.
    #[tactic(auto, using(crate::proofs::Order::place_rises, crate::proofs::Written::place_near))]
    fn between(&self, from: usize, to: usize) -> u32
        requires order { from ≤ to }
        requires there { to ≤ length self.now.fills.items }
        ensures exact { place (set_at self.now.fills.items) from + result ≡ place (set_at self.now.fills.items) to }
        ensures few { from + result ≤ to }
    {
        self.place(to) - self.place(from)
    }

    /// How many words there will be where now there are so many, from a place on.
    pub(crate) fn span(&self, from: usize, many: u32) -> u32
        requires there { from ≤ length self.now.fills.items }
        ensures { place (set_at self.now.fills.items) from + result ≡ place (set_at self.now.fills.items) (from + many) }
    {
        let all = self.fills.len();
        let behind = (all - from) as u32;
        if many <= behind {
            self.between(from, from + (many as usize))
        } else {
            self.between(from, all) + (many - behind)
        }
    }

    /// The place behind so many words from a place on, or behind the last word where there are fewer.
    pub(crate) fn behind(&self, from: usize, many: u32) -> usize
        requires there { from ≤ length self.now.fills.items }
        ensures within { result ≤ length self.now.fills.items }
        ensures exact { from + many ≤ length self.now.fills.items → result ≡ from + many }
        ensures last { length self.now.fills.items ≤ from + many → result ≡ length self.now.fills.items }
    {
        let behind = (self.fills.len() - from) as u32;
        if many <= behind {
            from + (many as usize)
        } else {
            self.fills.len()
        }
    }

    /// Where an address goes: with its word; what is no place of a word stays.
    pub(crate) fn moved_to(&self, address: u32) -> u32
        ensures { result ≡ moved_to (set_at self.now.fills.items) address }
    {
        if address >= CODE_BASE && address % 4 == 0 {
            CODE_BASE + 4 * self.any_place((address - CODE_BASE) / 4)
        } else {
            address
        }
    }
}
