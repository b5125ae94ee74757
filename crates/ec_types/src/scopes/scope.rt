//! The scope at a place of a program.
ghost use Rattle.std.specs.Prelude.{◌≡◌, [], ◌∷◌, length, IfOk, OnOk};
ghost use Rattle.std.specs.Option.{option_copied};
ghost use Rattle.ec_types.specs.Scopes as spec;

use crate::conform::TypeTable;
use crate::conform::operations::NamedOperation;
use crate::conform::static_type::StaticType;
use crate::scopes::entries::Entry;
use crate::scopes::globals::{ClassMeant, Globals, Meaning};
use crate::scopes::object::Object;
use ec_ast::TypeName;
use ec_base::list::Seq;
use std::alloc::{AllocError, Global};

/// What is in scope at a place: the types that the program declares, its constants, and the object constructors and the class
/// around the place, the outermost first.
#[derive(Drop)]
pub struct Scope {
    pub table: TypeTable,
    pub globals: Globals,
    pub objects: Seq<Object>,
}

/// A parameter, a result, a local or a field.
#[derive(Clone, Copy, PartialEq, Eq, Debug)]
pub struct Held {
    /// How many objects further out than the innermost one it is.
    pub out: usize,
    pub of: Option<StaticType>,
    pub is_variable: bool,
}

/// What a name that is used as a value means.
#[derive(Clone, Copy, PartialEq, Eq, Debug)]
pub enum Found {
    Held(Held),
    /// The value of a constant of the program, with its type where it has one.
    Constant(Option<StaticType>),
    Nothing,
}

/// What the meaning of a constant of the program is, as a value.
fn found_meaning(meaning: Option<&Meaning>) -> Found
    ensures { result ≡ spec.found_meaning (option_copied meaning.entry) }
{
    match meaning {
        Some(Meaning::Value(of)) => Found::Constant(*of),
        None | Some(Meaning::Class(_)) | Some(Meaning::Typeobject) => Found::Nothing,
    }
}

/// What a name means that an object so many out may hold.
fn held_or(out: usize, entry: Option<&Entry>, further: Found) -> Found
    ensures { result ≡ spec.held_or out (option_copied entry.entry) further }
{
    match entry {
        None => further,
        Some(entry) => Found::Held(Held {
            out,
            of: entry.of,
            is_variable: entry.is_variable,
        }),
    }
}

/// The class that the meaning of a constant is.
fn class_meant(meaning: Option<&Meaning>) -> Option<&ClassMeant>
    ensures { option_copied result ≡ spec.class_meant (option_copied meaning.entry) }
{
    match meaning {
        Some(Meaning::Class(class)) => Some(class),
        None | Some(Meaning::Value(_)) | Some(Meaning::Typeobject) => None,
    }
}

impl Scope {
    /// The scope outside of every object.
    pub fn new(alloc: Global, table: TypeTable, globals: Globals) -> Scope
        ensures { result ≡ record { table = table; globals = globals; objects = [] } }
    {
        Scope {
            table,
            globals,
            objects: Seq::new(alloc),
        }
    }

    /// What a name that is used as a value means. The error is want of memory.
    pub fn find(&self, name: &[u8]) -> Result<Found, AllocError>
        ensures { IfOk result (λ found. found ≡ spec.find self.now name.now) }
    {
        let mut found = found_meaning(self.globals.meaning(name)?);
        let mut out = self.objects.len();
        for object in self.objects.as_slice() {
            out -= 1;
            found = held_or(out, object.entry(name)?, found);
        }
        Ok(found)
    }

    /// The class that a name means in front of `.create`. The error is want of memory.
    pub fn class_named(&self, name: &[u8]) -> Result<Option<&ClassMeant>, AllocError>
        ensures { IfOk result (λ class. option_copied class ≡ spec.class_named self.now name.now) }
    {
        match self.find(name)? {
            Found::Held(_) | Found::Constant(_) => Ok(None),
            Found::Nothing => Ok(class_meant(self.globals.meaning(name)?)),
        }
    }

    /// The type that is written so. The error is want of memory.
    pub fn written(&self, of: &TypeName) -> Result<StaticType, AllocError>
        ensures { IfOk result (λ t. t ≡ spec.written_in self.now of.now) }
    {
        self.table.type_of(of)
    }

    /// The innermost object around the place.
    #[tactic(auto, using(crate::proofs::Innermost::top_read))]
    pub fn innermost(&self) -> Option<&Object>
        ensures { option_copied result ≡ spec.innermost self.now }
    {
        self.objects.as_slice().last()
    }

    /// Whether a parameter, a result or a local of the operation has that name. The error is want of memory.
    pub fn is_local(&self, name: &[u8]) -> Result<bool, AllocError>
        ensures { IfOk result (λ is. is ≡ spec.is_local self.now name.now) }
    {
        match self.innermost() {
            None => Ok(false),
            Some(object) => object.locals.has(name),
        }
    }

    /// Whether `wait` and `signal` may name a condition. The error is want of memory.
    pub fn may_use(&self, name: &[u8]) -> Result<bool, AllocError>
        ensures { IfOk result (λ may. may ≡ spec.may_use self.now name.now) }
    {
        match self.innermost() {
            None => Ok(false),
            Some(object) => object.may_use(name),
        }
    }

    /// Whether the place is in a loop.
    pub fn is_in_loop(&self) -> bool
        ensures { result ≡ spec.is_in_loop self.now }
    {
        match self.innermost() {
            None => false,
            Some(object) => object.in_loop,
        }
    }

    /// The operation of the enclosing object, exported or not, that a name means. The error is want of memory.
    pub fn own_operation(&self, name: &[u8]) -> Result<Option<&NamedOperation>, AllocError>
        ensures { IfOk result (λ found. option_copied found ≡ spec.own_operation self.now name.now) }
    {
        match self.innermost() {
            None => Ok(None),
            Some(object) => object.operations.named(name),
        }
    }

    /// How many parameters, results and locals of the operation are in scope.
    pub fn local_count(&self) -> usize
        ensures { result ≡ length (spec.locals_of (spec.innermost self.now)) }
    {
        match self.innermost() {
            None => 0,
            Some(object) => object.locals.len(),
        }
    }
}

impl Scope {
    /// Goes into an object constructor or a class. The error is want of memory.
    pub fn enter(&mut self, object: Object) -> Result<(), AllocError>
        ensures { OnOk result (self.new ≡ spec.within self.old object) }
    {
        self.objects.push(object)
    }

    /// Goes out of the innermost object, which is gone.
    pub fn leave(&mut self)
        ensures { self.new ≡ spec.outside self.old }
    {
        self.objects.pop();
    }

    /// Adds a parameter, a result or a local. The error is want of memory.
    pub fn declare(&mut self, entry: Entry) -> Result<(), AllocError>
        ensures { OnOk result (self.new ≡ spec.declaring (entry ∷ []) self.old) }
    {
        let count = self.objects.len();
        if count == 0 {
            return Ok(());
        }
        let object = self.objects.at_mut(count - 1);
        object.locals.push(entry)?;
        Ok(())
    }

    /// Leaves the first so many parameters, results and locals. The rest is gone.
    pub fn forget_locals(&mut self, count: usize)
        ensures { self.new ≡ spec.forgetting count self.old }
    {
        let objects = self.objects.len();
        if objects > 0 {
            let object = self.objects.at_mut(objects - 1);
            object.locals.truncate(count);
        }
    }

    /// Goes into a loop, or out of it.
    pub fn set_in_loop(&mut self, is_in_loop: bool)
        ensures { self.new ≡ spec.looping is_in_loop self.old }
    {
        let count = self.objects.len();
        if count > 0 {
            let object = self.objects.at_mut(count - 1);
            object.in_loop = is_in_loop;
        }
    }

    /// Goes into a process section.
    pub fn set_in_process(&mut self)
        ensures { self.new ≡ spec.in_a_process self.old }
    {
        let count = self.objects.len();
        if count > 0 {
            let object = self.objects.at_mut(count - 1);
            object.in_process = true;
        }
    }
}
