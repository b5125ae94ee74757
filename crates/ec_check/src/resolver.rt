//! What is kept while the core of a program is made, and where a value is kept that a name means.
ghost use Rattle.std.specs.Prelude.{◌≡◌, IfOk};
ghost use Rattle.ec_check.specs.Making.{env_of};
ghost use Rattle.ec_check.specs.Places as spec;

use crate::variables::Variables;
use ec_core::{Class, Operation, Place};
use ec_judge::walk::Walk;
use ec_types::conform::static_type::StaticType;
use ec_types::names::Names;
use ec_types::scopes::{Entries, Found};
use sqlite_items::Items;
use std::alloc::AllocError;

/// The classes and the operations that were made so far, in the order of the text.
#[derive(Drop)]
pub struct Made {
    pub classes: Items<Class>,
    pub operations: Items<Operation>,
}

/// A place of a program, and what was made before it.
#[derive(Drop)]
pub struct Resolver<'a> {
    /// What is in scope. The faults and the uses of names that judging a part leaves here aren't looked at.
    pub walk: Walk<'a>,
    /// The names that the own object captures.
    pub captures: Names,
    /// The operation's variables so far.
    pub variables: Variables,
    pub made: Made,
}

/// A number, or 0 where there is none.
pub fn number_or(number: Option<usize>) -> usize
    ensures { result ≡ spec.number_or number }
{
    match number {
        None => 0,
        Some(number) => number,
    }
}

/// A type, where there is one.
pub fn type_or(of: Option<StaticType>) -> StaticType
    ensures { result ≡ spec.type_or of }
{
    match of {
        None => StaticType::Unknown,
        Some(of) => of,
    }
}

fn entry_named(entries: &Entries, name: &[u8]) -> Result<usize, AllocError>
    ensures { IfOk result (λ number. number ≡ spec.number_named (spec.names_of entries.now) name.now) }
{
    Ok(number_or(entries.number(name)?))
}

impl Resolver<'_> {
    /// The number of the parameter, result or local that a name means. The error is want of memory.
    fn variable_named(&self, name: &[u8]) -> Result<usize, AllocError>
        ensures { IfOk result (λ number. number ≡ spec.variable_named (env_of self.now) name.now) }
    {
        match self.walk.scope.innermost() {
            None => Ok(self.variables.number_at(0)),
            Some(object) => Ok(self.variables.number_at(entry_named(&object.locals, name)?)),
        }
    }

    /// The number of the field of the own object that a name means. The error is want of memory.
    pub fn field_named(&self, name: &[u8]) -> Result<usize, AllocError>
        ensures { IfOk result (λ number. number ≡ spec.field_named (env_of self.now) name.now) }
    {
        match self.walk.scope.innermost() {
            None => Ok(0),
            Some(object) => entry_named(&object.fields, name),
        }
    }

    /// The number of the condition of the own object that a name means. The error is want of memory.
    pub fn condition_named(&self, name: &[u8]) -> Result<usize, AllocError>
        ensures { IfOk result (λ number. number ≡ spec.condition_named (env_of self.now) name.now) }
    {
        match self.walk.scope.innermost() {
            None => Ok(0),
            Some(object) => Ok(number_or(object.conditions.first(name)?)),
        }
    }

    fn own_place(&self, name: &[u8]) -> Result<Place, AllocError>
        ensures { IfOk result (λ place. place ≡ spec.own_place (env_of self.now) name.now) }
    {
        if self.walk.scope.is_local(name)? {
            Ok(Place::Variable(self.variable_named(name)?))
        } else {
            Ok(Place::Field(self.field_named(name)?))
        }
    }

    fn held_place(&self, name: &[u8], out: usize) -> Result<Place, AllocError>
        ensures { IfOk result (λ place. place ≡ spec.held_place (env_of self.now) name.now out) }
    {
        if out == 0 {
            self.own_place(name)
        } else {
            Ok(Place::Captured(number_or(self.captures.first(name)?)))
        }
    }

    fn constant_named(&self, name: &[u8]) -> Result<usize, AllocError>
        ensures { IfOk result (λ number. number ≡ spec.constant_named (env_of self.now) name.now) }
    {
        Ok(number_or(self.walk.scope.globals.number(name)?))
    }

    /// Where the value is kept that a name means. The error is want of memory.
    pub fn place_of(&self, name: &[u8]) -> Result<Place, AllocError>
        ensures { IfOk result (λ place. place ≡ spec.place_of (env_of self.now) name.now) }
    {
        match self.walk.scope.find(name)? {
            Found::Held(h) => self.held_place(name, h.out),
            Found::Constant(_) => Ok(Place::Constant(self.constant_named(name)?)),
            Found::Nothing => Ok(Place::Constant(0)),
        }
    }
}
