//! An object constructor or class, at a place within it.
ghost use Rattle.std.specs.Prelude.{◌≡◌, ◌++◌, Some, IfOk};
ghost use Rattle.std.specs.Option.{option_copied};
ghost use Rattle.ec_types.specs.Scopes as spec;

use crate::conform::operations::Operations;
use crate::names::Names;
use crate::scopes::entries::{Entries, Entry};
use std::alloc::AllocError;

/// An object constructor or class, at a place within it.
#[derive(Drop)]
pub struct Object {
    /// The number of its type.
    pub number: usize,
    pub is_monitored: bool,
    pub in_process: bool,
    pub in_loop: bool,
    /// The parameters, the result and the locals in scope there, the first first.
    pub locals: Entries,
    /// Its fields, parameters of a class among them.
    pub fields: Entries,
    pub conditions: Names,
    /// All of its operations, exported or not.
    pub operations: Operations,
}

impl Object {
    /// The local, or else the field, that a name means. The error is want of memory.
    pub fn entry(&self, name: &[u8]) -> Result<Option<&Entry>, AllocError>
        ensures { IfOk result (λ found. option_copied found ≡ spec.entry_named (self.now.locals ++ self.now.fields) name.now) }
    {
        match self.locals.named(name)? {
            Some(local) => Ok(Some(local)),
            None => self.fields.named(name),
        }
    }

    /// Whether `wait` and `signal` may name a condition there. The error is want of memory.
    pub fn may_use(&self, name: &[u8]) -> Result<bool, AllocError>
        ensures { IfOk result (λ may. may ≡ spec.may_use_in (Some self.now) name.now) }
    {
        if self.is_monitored && !self.in_process {
            self.conditions.has(name)
        } else {
            Ok(false)
        }
    }
}
