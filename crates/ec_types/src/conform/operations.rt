//! The operations of a type, each found by its name.
ghost use Rattle.std.specs.Prelude.{◌≡◌, ◌++◌, [], ◌∷◌, length, IfOk, OnOk, OnErr};
ghost use Rattle.std.specs.Option.{option_copied};
ghost use Rattle.ec_types.specs.Names.{has_name};
ghost use Rattle.ec_types.specs.Types as spec;

use crate::conform::static_type::StaticType;
use crate::names::Names;
use ec_ast::Text;
use sqlite_items::Items;
use std::alloc::{AllocError, Global};
use std::marker::Model;

/// An operation: its name, and the types of its parameters and of its result, where it has one.
#[derive(Drop)]
pub struct NamedOperation {
    pub name: Text,
    pub parameters: Items<StaticType>,
    pub result: Option<StaticType>,
}

/// Operations in the order of their declarations. A name may be there more than once; it then means the first.
#[derive(Drop)]
pub struct Operations {
    names: Names,
    operations: Items<NamedOperation>,
}

impl Model for Operations {
    ghost use Rattle.std.specs.Prelude.{◌≡◌, List, map};
    ghost use Rattle.ec_types.specs.declared.conform.operations.NamedOperation.{NamedOperation};

    ghost Value = { List NamedOperation };

    ghost view = { λ o. o.operations };

    ghost invariant = { λ o. o.names ≡ map (λ x. x.name) o.operations };
}

impl Operations {
    /// No operations.
    pub fn new(alloc: Global) -> Operations
        ensures { result ≡ [] }
    {
        Operations {
            names: Names::new(alloc),
            operations: Items::new(alloc),
        }
    }

    /// How many there are.
    pub fn len(&self) -> usize
        ensures { result ≡ length self.now }
    {
        self.operations.len()
    }

    /// All, in their order.
    pub fn as_slice(&self) -> &[NamedOperation]
        ensures { result.now ≡ self.now }
    {
        self.operations.as_slice()
    }

    /// Adds an operation behind the others. The error is want of memory, and then nothing has changed.
    pub fn push(&mut self, operation: NamedOperation) -> Result<(), AllocError>
        ensures added { OnOk result (self.new ≡ self.old ++ operation ∷ []) }
        ensures kept { OnErr result (self.new ≡ self.old) }
    {
        self.names.push(operation.name.as_slice())?;
        match self.operations.push(operation) {
            Ok(()) => Ok(()),
            Err(error) => {
                self.names.truncate(self.operations.len());
                Err(error)
            }
        }
    }

    /// Whether an operation has this name. The error is want of memory.
    pub fn has(&self, name: &[u8]) -> Result<bool, AllocError>
        ensures { IfOk result (λ found. found ≡ has_name (spec.operation_names self.now) name.now) }
    {
        self.names.has(name)
    }

    /// The first operation with this name. The error is want of memory.
    pub fn named(&self, name: &[u8]) -> Result<Option<&NamedOperation>, AllocError>
        ensures { IfOk result (λ found. option_copied found ≡ spec.operation_named self.now name.now) }
    {
        match self.names.first(name)? {
            None => Ok(None),
            Some(number) => Ok(self.operations.get(number)),
        }
    }
}
