//! The variables of an operation: its parameters, its result and its locals.
ghost use Rattle.std.specs.Prelude.{◌≡◌, ◌++◌, [], ◌∷◌, length, take, OnOk};
ghost use Rattle.ec_check.specs.Places as spec;

use crate::resolver::number_or;
use ec_types::conform::static_type::StaticType;
use sqlite_items::Items;
use std::alloc::{AllocError, Global};

/// Variables are numbered from 0 on; the number of a local that is out of scope isn't given again.
#[derive(Drop)]
pub struct Variables {
    /// Those in scope, in the order of their declarations.
    pub numbers: Vec<usize>,
    /// The types of all.
    pub types: Items<StaticType>,
}

impl Variables {
    /// No variables.
    pub fn new(alloc: Global) -> Variables
        ensures numbers { result.numbers.items ≡ [] }
        ensures types { result.types ≡ [] }
    {
        Variables {
            numbers: Vec::new(alloc),
            types: Items::new(alloc),
        }
    }

    /// Adds one with the next number, in scope. The error is want of memory.
    pub fn add(&mut self, of: StaticType) -> Result<(), AllocError>
        ensures numbers { OnOk result (self.new.numbers.items ≡ self.old.numbers.items ++ length self.old.types ∷ []) }
        ensures types { OnOk result (self.new.types ≡ self.old.types ++ of ∷ []) }
    {
        self.numbers.push(self.types.len())?;
        self.types.push(of)
    }

    /// How many are in scope.
    pub fn count_in_scope(&self) -> usize
        ensures { result ≡ length self.now.numbers.items }
    {
        self.numbers.len()
    }

    /// Leaves the first so many in scope.
    pub fn forget(&mut self, count: usize)
        ensures numbers { self.new.numbers.items ≡ take count self.old.numbers.items }
        ensures types { self.new.types ≡ self.old.types }
    {
        self.numbers.truncate(count);
    }

    /// The number of that which stands at a place among those in scope, or 0.
    pub fn number_at(&self, at: usize) -> usize
        ensures { result ≡ spec.number_at_or self.now.numbers.items at }
    {
        number_or(self.numbers.get(at).copied())
    }
}
