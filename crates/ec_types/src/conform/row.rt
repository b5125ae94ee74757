//! Numbers in a row, each found at once.
ghost use Rattle.std.specs.Prelude.{◌≡◌, IfOk, length, slice_get};
ghost use Rattle.ec_types.specs.Rows.{place_of};

use std::alloc::{AllocError, Global};
use std::collections::BTreeMap;
use std::marker::Model;

/// Numbers in a row. A number may be there more than once; its place is the first.
#[derive(Drop)]
pub struct Row {
    numbers: Vec<usize>,
    places: BTreeMap<usize, usize>,
}

impl Model for Row {
    ghost use Rattle.std.specs.Prelude.{List, ℕ};
    ghost use Rattle.ec_types.specs.Rows.{ArePlaces};

    ghost Value = { List ℕ };

    ghost view = { λ r. r.numbers.items };

    ghost invariant = { λ r. ArePlaces r.places r.numbers.items };
}

impl Row {
    /// These numbers. The error is want of memory.
    pub fn new(alloc: Global, numbers: Vec<usize>) -> Result<Row, AllocError>
        ensures { IfOk result (λ row. row ≡ numbers.items) }
    {
        let mut places = BTreeMap::new(alloc);
        for place in (0..numbers.len()).rev() {
            places.insert(numbers[place], place)?;
        }
        Ok(Row { numbers, places })
    }

    /// How many there are.
    pub fn len(&self) -> usize
        ensures { result ≡ length self.now }
    {
        self.numbers.len()
    }

    /// The number at a place.
    pub fn get(&self, place: usize) -> Option<usize>
        ensures { result ≡ slice_get self.now place }
    {
        self.numbers.get(place).copied()
    }

    /// The place of the first that is the same.
    pub fn place_of(&self, number: usize) -> Option<usize>
        ensures { result ≡ place_of self.now number }
    {
        self.places.get(&number).copied()
    }
}
