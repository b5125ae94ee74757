//! Names that stand for values, each found by its letters.
ghost use Rattle.std.specs.Prelude.{◌≡◌, ◌++◌, [], ◌∷◌, length, map, take, IfOk, OnOk, OnErr};
ghost use Rattle.std.specs.Option.{option_copied};
ghost use Rattle.ec_types.specs.Names.{first_named, has_name};
ghost use Rattle.ec_types.specs.Scopes as spec;

use crate::conform::static_type::StaticType;
use crate::names::Names;
use ec_ast::Text;
use sqlite_items::at;
use std::alloc::{AllocError, Global};
use std::marker::Model;

/// A name that stands for a value: a parameter, a result, a local or a field.
#[derive(Drop)]
pub struct Entry {
    pub name: Text,
    /// None where it is a const that lacks the type it needs.
    pub of: Option<StaticType>,
    pub is_variable: bool,
}

/// Entries in the order of their declarations, each found by its name. A contract sees the list of them.
#[derive(Drop)]
pub struct Entries {
    names: Names,
    entries: Vec<Entry>,
}

impl Model for Entries {
    ghost use Rattle.std.specs.Prelude.{◌≡◌, List, map};
    ghost use Rattle.ec_types.specs.declared.scopes.entries.Entry.{Entry};

    ghost Value = { List Entry };

    ghost view = { λ e. e.entries.items };

    ghost invariant = { λ e. e.names ≡ map (λ (own : Entry). own.name) e.entries.items };
}

impl Entries {
    /// No entries.
    pub fn new(alloc: Global) -> Entries
        ensures { result ≡ [] }
    {
        Entries {
            names: Names::new(alloc),
            entries: Vec::new(alloc),
        }
    }

    /// How many there are.
    pub fn len(&self) -> usize
        ensures { result ≡ length self.now }
    {
        self.entries.len()
    }

    /// The place of the first entry with this name. The error is want of memory.
    pub fn number(&self, name: &[u8]) -> Result<Option<usize>, AllocError>
        ensures { IfOk result (λ found. found ≡ first_named (map (λ (own : Entry). own.name) self.now) name.now) }
    {
        self.names.first(name)
    }

    /// Adds an entry behind the others. The error is want of memory, and then nothing has changed.
    pub fn push(&mut self, entry: Entry) -> Result<(), AllocError>
        ensures added { OnOk result (self.new ≡ self.old ++ entry ∷ []) }
        ensures kept { OnErr result (self.new ≡ self.old) }
    {
        self.names.push(entry.name.as_slice())?;
        match self.entries.push(entry) {
            Ok(()) => Ok(()),
            Err(_failed) => {
                self.names.truncate(self.entries.len());
                Err(AllocError)
            }
        }
    }

    /// Leaves the first so many entries. The rest is gone.
    pub fn truncate(&mut self, count: usize)
        ensures { self.new ≡ take count self.old }
    {
        self.names.truncate(count);
        self.entries.truncate(count);
    }

    /// The entry that a name means. The error is want of memory.
    pub fn named(&self, name: &[u8]) -> Result<Option<&Entry>, AllocError>
        ensures { IfOk result (λ found. option_copied found ≡ spec.entry_named self.now name.now) }
    {
        match self.names.first(name)? {
            None => Ok(None),
            Some(number) => Ok(at(self.entries.as_slice(), number)),
        }
    }

    /// Whether an entry has that name. The error is want of memory.
    pub fn has(&self, name: &[u8]) -> Result<bool, AllocError>
        ensures { IfOk result (λ found. found ≡ has_name (map (λ (own : Entry). own.name) self.now) name.now) }
    {
        self.names.has(name)
    }
}
