//! The constants of a program, each found by its letters.
ghost use Rattle.std.specs.Prelude.{◌≡◌, ◌++◌, [], ◌∷◌, map, option_map, IfOk, OnOk, OnErr};
ghost use Rattle.std.specs.Option.{option_copied};
ghost use Rattle.ec_types.specs.Names.{first_named};
ghost use Rattle.ec_types.specs.Scopes as spec;

use crate::conform::static_type::StaticType;
use crate::names::Names;
use ec_ast::Text;
use sqlite_items::{Items, at};
use std::alloc::{AllocError, Global as Allocator};
use std::marker::Model;

/// A class: the number of the type of its objects, and the types of its parameters.
#[derive(Drop)]
pub struct ClassMeant {
    pub number: usize,
    pub parameters: Items<StaticType>,
}

/// What a constant of the program stands for.
#[derive(Drop)]
pub enum Meaning {
    /// A value, with its type; None where it lacks the type it needs.
    Value(Option<StaticType>),
    Class(ClassMeant),
    Typeobject,
}

/// A constant of the program.
#[derive(Drop)]
pub struct Global {
    pub name: Text,
    pub meaning: Meaning,
}

/// The constants of the program in their order, each found by its name. A contract sees the list of them.
#[derive(Drop)]
pub struct Globals {
    names: Names,
    globals: Vec<Global>,
}

impl Model for Globals {
    ghost use Rattle.std.specs.Prelude.{◌≡◌, List, map};
    ghost use Rattle.ec_types.specs.declared.scopes.globals.Global.{Global};

    ghost Value = { List Global };

    ghost view = { λ g. g.globals.items };

    ghost invariant = { λ g. g.names ≡ map (λ (own : Global). own.name) g.globals.items };
}

fn meaning_of(global: Option<&Global>) -> Option<&Meaning>
    ensures { option_copied result ≡ option_map (λ g. g.meaning) (option_copied global.entry) }
{
    global.map(|global| &global.meaning)
}

impl Globals {
    /// No constants.
    pub fn new(alloc: Allocator) -> Globals
        ensures { result ≡ [] }
    {
        Globals {
            names: Names::new(alloc),
            globals: Vec::new(alloc),
        }
    }

    /// Adds a constant behind the others. The error is want of memory, and then nothing has changed.
    pub fn push(&mut self, global: Global) -> Result<(), AllocError>
        ensures added { OnOk result (self.new ≡ self.old ++ global ∷ []) }
        ensures kept { OnErr result (self.new ≡ self.old) }
    {
        self.names.push(global.name.as_slice())?;
        match self.globals.push(global) {
            Ok(()) => Ok(()),
            Err(_failed) => {
                self.names.truncate(self.globals.len());
                Err(AllocError)
            }
        }
    }

    /// The place of the first constant with this name. The error is want of memory.
    pub fn number(&self, name: &[u8]) -> Result<Option<usize>, AllocError>
        ensures { IfOk result (λ found. found ≡ first_named (map (λ (own : Global). own.name) self.now) name.now) }
    {
        self.names.first(name)
    }

    /// What the constant stands for that a name means. The error is want of memory.
    pub fn meaning(&self, name: &[u8]) -> Result<Option<&Meaning>, AllocError>
        ensures { IfOk result (λ found. option_copied found ≡ spec.meaning_named self.now name.now) }
    {
        match self.names.first(name)? {
            None => Ok(None),
            Some(number) => Ok(meaning_of(at(self.globals.as_slice(), number))),
        }
    }
}
