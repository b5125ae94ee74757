//! What a world knows of the program: its classes.
ghost use Rattle.std.specs.Prelude.{◌≡◌, Some};
ghost use Rattle.ec_world.specs.Doings.{runs_inside};
ghost use Rattle.ec_world.specs.Objects as spec;

use crate::value::{OpNo, Text, ValueType};
use ec_base::list::Seq;

/// A type that isn't a vector's. A named type stands by its number among those of the program.
#[derive(Clone, Copy, PartialEq, Eq, Debug)]
pub enum PlainType {
    Integer,
    Boolean,
    Bytes,
    Any,
    Node,
    Named(u32),
}

/// The type of a vector: `vector.of[..]` around so many more `vector.of[..]` around a type.
#[derive(Clone, Copy, PartialEq, Eq, Debug)]
pub struct VectorType {
    pub inner: u32,
    pub of: PlainType,
}

impl VectorType {
    /// What the elements of such a vector are.
    pub fn elements(self) -> ValueType
        ensures { result ≡ spec.element_kind self }
    {
        if self.inner > 0 {
            return ValueType::Reference;
        }
        match self.of {
            PlainType::Integer => ValueType::Integer,
            PlainType::Boolean => ValueType::Boolean,
            PlainType::Bytes => ValueType::Bytes,
            PlainType::Any | PlainType::Node | PlainType::Named(_) => ValueType::Reference,
        }
    }
}

/// The class of an object: that of nodes, that of the program's own object, a class or object constructor by its place
/// among these in the source, from 0, or that of the vectors of a type.
#[derive(Clone, Copy, PartialEq, Eq, Debug)]
pub enum ClassNo {
    Node,
    Program,
    Made(u32),
    Vector(VectorType),
}

/// The type as which an object is viewed. Of a named type also whether it has no operations.
#[derive(Clone, Copy, PartialEq, Eq, Debug)]
pub enum ViewedAs {
    Any,
    Node,
    Vector(VectorType),
    Named { number: u32, is_bare: bool },
}

/// A field of a class: whether it is attached, and its type.
#[derive(Clone, Copy)]
pub struct FieldRec {
    pub attached: bool,
    pub of: ValueType,
}

/// The number of a name of operations. Names that are the same but for case have one.
pub type NameNo = u32;

/// An operation of a class, by its name.
#[derive(Clone, Copy)]
pub struct OperationRec {
    pub name: NameNo,
    pub operation: OpNo,
}

/// A class or object constructor: its name as declared, its operation 0, its process section where it has one, whether its objects have
/// a monitor, and with how many conditions, its fields, its operations by their names, and for each named type of the program, by its
/// number, whether the class conforms to it. The fields that a creation gives come first: captured names, or parameters.
#[derive(Drop)]
pub struct ClassRec {
    pub name: Text,
    pub initial: OpNo,
    pub process: Option<OpNo>,
    pub monitored: bool,
    pub conditions: u32,
    pub fields: Seq<FieldRec>,
    pub operations: Seq<OperationRec>,
    pub conforms: Seq<bool>,
}

impl ClassRec {
    /// The operation that a name means: the first that has it.
    pub(crate) fn operation_named(&self, name: NameNo) -> Option<OpNo>
        ensures { result ≡ spec.operation_named self.now.operations name }
    {
        for operation in self.operations.as_slice() {
            if operation.name == name {
                return Some(operation.operation);
            }
        }
        None
    }

    /// Whether an operation runs in the monitor of its object.
    pub(crate) fn is_inside(&self, op: OpNo) -> bool
        ensures { result ≡ runs_inside (Some self.now) op }
    {
        if !self.monitored {
            return false;
        }
        match self.process {
            Some(section) => section != op,
            None => true,
        }
    }

    /// Whether the class conforms to the named type of a number.
    pub(crate) fn conforms_to(&self, number: u32) -> bool
        ensures { result ≡ spec.true_at self.now.conforms number }
    {
        match self.conforms.get(number as usize) {
            Some(conforms) => *conforms,
            None => false,
        }
    }
}

/// The classes and object constructors of a program, in the order of the source.
pub type Classes = Seq<ClassRec>;
