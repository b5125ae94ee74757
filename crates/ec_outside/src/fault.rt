//! Faults, and the counts of them by the names that were asked for.
ghost use Rattle.std.specs.Prelude.{◌≡◌, ℕ, ◌+◌, ◌-◌, ◌^◌, List, ◌≤◌, min, length, map, position, IfOk};
ghost use Rattle.std.specs.Str.{bytes_eq};
ghost use Rattle.ec_outside.specs.Fault.{HasRisen, ShareCount, count_of, place_of};

use std::alloc::{AllocError, Global};
use std::marker::Model;

/// A call that met a fault: a file that is missing, a read or a write that the system refused.
#[derive(Clone, Copy, Debug, PartialEq, Eq)]
pub struct Failed;

/// Counts of faults from 0 to 2^64 - 1: one for each kept name, and one for all other names together.
#[derive(Drop)]
pub struct Counts<'a> {
    names: Vec<&'a str>,
    counts: Vec<u64>,
    others: u64,
}

impl<'a> Model for Counts<'a> {
    ghost use Rattle.std.specs.Prelude.{◌≡◌, map, length};
    ghost use Rattle.ec_outside.specs.Fault.{Tally};

    ghost Value = { Tally };

    ghost view = { λ c. record { names = map (λ x. x.now) c.names.items; counts = c.counts.items; others = c.others } };

    ghost invariant = { λ c. length c.counts.items ≡ length c.names.items };
}

/// The first place of a name among others.
fn place_among(names: &[&str], name: &str) -> Option<usize>
    ensures { result ≡ position (λ kept. bytes_eq kept.now name.now) names.now }
{
    names.iter().position(|kept| *kept == name)
}

impl<'a> Counts<'a> {
    /// No faults so far, of these names.
    pub fn new(alloc: Global, names: Vec<&'a str>) -> Result<Counts<'a>, AllocError>
        ensures names { IfOk result (λ c. c.names ≡ map (λ x. x.now) names.entry.items) }
        ensures none { IfOk result (λ c. (name : List ℕ) → count_of c name ≡ 0) }
    {
        let counts = vec![in alloc; 0u64; names.len()]?;
        Ok(Counts {
            names,
            counts,
            others: 0,
        })
    }

    /// The first place of a name among the kept ones, where it is kept.
    fn place(&self, name: &str) -> Option<usize>
        ensures { result ≡ place_of self.now.names name.now }
    {
        place_among(&self.names, name)
    }

    /// The faults so far that a name shares a count of.
    pub fn of(&self, name: &str) -> u64
        ensures { result ≡ count_of self.now name.now }
    {
        match self.place(name) {
            Some(i) => self.counts[i],
            None => self.others,
        }
    }

    /// One fault more of a name; a count that stands at 2^64 - 1 stays there.
    pub(crate) fn raise(&mut self, name: &str)
        ensures names { self.new.names ≡ self.old.names }
        ensures risen { HasRisen (count_of self.old name.now) (count_of self.new name.now) }
        ensures by_one { count_of self.new name.now ≡ min (count_of self.old name.now + 1) (2 ^ 64 - 1) }
        ensures others { (other : List ℕ) → ¬ ShareCount self.old.names name.now other →
            count_of self.new other ≡ count_of self.old other }
        ensures never_falls { (other : List ℕ) → count_of self.old other ≤ count_of self.new other }
    {
        match self.place(name) {
            Some(i) => self.counts[i] = self.counts[i].saturating_add(1),
            None => self.others = self.others.saturating_add(1),
        }
    }
}
