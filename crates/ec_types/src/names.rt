//! Names in the order of their declarations, each found by its letters without their case.

ghost use Rattle.std.specs.Prelude.{◌≡◌, ◌≢◌, ◌-◌, ◌++◌, [], ◌∷◌, length, option_map, slice_get, take, Some, None, IfOk, OnOk, OnErr};
ghost use Rattle.std.specs.Str.{str_to_ascii_lowercase};
ghost use Rattle.std.specs.BTreeMap.{IsUnchanged, Updates, get};
ghost use Rattle.std.specs.Option.{unwrap_or};
ghost use Rattle.ec_types.specs.Firsts.{by_letters};
ghost use Rattle.ec_types.specs.Names as spec;

use std::alloc::{AllocError, Global};
use std::collections::BTreeMap;
use std::marker::Model;

/// Names in the order of their declarations. A name may be there more than once; it then means the first.
#[derive(Drop)]
pub struct Names {
    alloc: Global,
    // as they are written, in order
    names: Vec<Vec<u8>>,
    // the number of the first of the names with these letters, which are in lower case
    firsts: BTreeMap<Vec<u8>, usize>,
}

impl Model for Names {
    ghost use Rattle.std.specs.Prelude.{List, ℕ, map};
    ghost use Rattle.ec_types.specs.Firsts.{AreFirsts, texts};

    ghost Value = { List (List ℕ) };

    ghost view = { λ n. texts n.names.items };

    ghost invariant = { λ n. AreFirsts n.firsts (texts n.names.items) };
}

/// Whether two names are one. Case isn't significant.
pub fn is_same(a: &[u8], b: &[u8]) -> bool
    ensures { result ≡ spec.is_same a.now b.now }
{
    a.eq_ignore_ascii_case(b)
}

/// A name's letters in lower case.
fn folded(name: Vec<u8>) -> Vec<u8>
    ensures { result.items ≡ str_to_ascii_lowercase name.items }
{
    let mut letters = name;
    letters.as_mut_slice().make_ascii_lowercase();
    letters
}

/// Gives letters this number, unless they have one. The error is want of memory, and then nothing has changed.
fn enter(
    firsts: &mut BTreeMap<Vec<u8>, usize>,
    letters: Vec<u8>,
    number: usize,
) -> Result<(), AllocError>
    ensures entered { OnOk result
        (Updates by_letters firsts.old firsts.new letters (Some (unwrap_or (get by_letters firsts.old letters) number))) }
    ensures kept { OnErr result (IsUnchanged firsts.old firsts.new) }
{
    let first = firsts.get(letters.as_slice()).copied().unwrap_or(number);
    firsts.insert(letters, first)?;
    Ok(())
}

/// Takes letters out, if this is their number.
fn leave(firsts: &mut BTreeMap<Vec<u8>, usize>, letters: Vec<u8>, number: usize)
    ensures gone { get by_letters firsts.old letters ≡ Some number → Updates by_letters firsts.old firsts.new letters None }
    ensures kept { get by_letters firsts.old letters ≢ Some number → IsUnchanged firsts.old firsts.new }
{
    if firsts.get(letters.as_slice()).copied() == Some(number) {
        firsts.remove(letters.as_slice());
    }
}

impl Names {
    /// No names.
    pub fn new(alloc: Global) -> Names
        ensures { result ≡ [] }
    {
        Names {
            alloc,
            names: Vec::new(alloc),
            firsts: BTreeMap::new(alloc),
        }
    }

    /// How many there are.
    pub fn len(&self) -> usize
        ensures { result ≡ length self.now }
    {
        self.names.len()
    }

    /// The name at a place.
    pub fn get(&self, at: usize) -> Option<&[u8]>
        ensures { option_map (λ name. name.now) result ≡ slice_get self.now at }
    {
        match self.names.get(at) {
            None => None,
            Some(own) => Some(own.as_slice()),
        }
    }

    /// Adds a name behind the others. The error is want of memory, and then nothing has changed.
    pub fn push(&mut self, name: &[u8]) -> Result<(), AllocError>
        ensures added { OnOk result (self.new ≡ self.old ++ name.now ∷ []) }
        ensures kept { OnErr result (self.new ≡ self.old) }
    {
        let own = Vec::from_slice(self.alloc, name)?;
        let letters = folded(Vec::from_slice(self.alloc, name)?);
        self.names.reserve(1)?;
        enter(&mut self.firsts, letters, self.names.len())?;
        self.names.push(own)?;
        Ok(())
    }

    /// Leaves the first so many names. The rest is gone.
    pub fn truncate(&mut self, count: usize)
        ensures { self.new ≡ take count self.old }
    {
        while count < self.len() {
            self.drop_last();
        }
    }

    /// Drops the last name, if there is one.
    fn drop_last(&mut self)
        ensures { self.new ≡ take (length self.old - 1) self.old }
    {
        if let Some(own) = self.names.pop() {
            leave(&mut self.firsts, folded(own), self.names.len());
        }
    }

    /// The number of the first name that is the same. The error is want of memory.
    pub fn first(&self, name: &[u8]) -> Result<Option<usize>, AllocError>
        ensures { IfOk result (λ found. found ≡ spec.first_named self.now name.now) }
    {
        let letters = folded(Vec::from_slice(self.alloc, name)?);
        Ok(self.firsts.get(letters.as_slice()).copied())
    }

    /// Whether a name is there. The error is want of memory.
    pub fn has(&self, name: &[u8]) -> Result<bool, AllocError>
        ensures { IfOk result (λ found. found ≡ spec.has_name self.now name.now) }
    {
        Ok(self.first(name)?.is_some())
    }
}
