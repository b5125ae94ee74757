//! Values of the language, and the numbers by which things are named.
ghost use Rattle.std.specs.Prelude.{◌≡◌, IfOk, pos};
ghost use Rattle.ec_world.specs.Values.{default_of};

use ec_base::list::Seq;
use std::alloc::{AllocError, Global};

/// The number of an object, from 1.
pub type Oid = u32;

/// The number of a process, from 0.
pub type Pid = u32;

/// The number of a node, from 0.
pub type NodeNo = u32;

/// The number of an operation, from 0. Operation 0 is the one that evaluates the program's constants.
pub type OpNo = u32;

/// A list of bytes.
pub type Text = Seq<u8>;

/// A list of values.
pub type Values = Seq<Value>;

/// A list of numbers of objects.
pub type Oids = Seq<Oid>;

/// A value of the language.
#[derive(Drop)]
pub enum Value {
    Int(i32),
    Bool(bool),
    Str(Text),
    Ref(Oid),
    Nil,
}

/// The static type of a variable, a field or a constant. Every reference type is one here.
#[derive(Clone, Copy, PartialEq, Eq, Debug)]
pub enum ValueType {
    Integer,
    Boolean,
    Bytes,
    Reference,
}

impl Value {
    /// The same value again.
    pub fn copy(&self) -> Result<Value, AllocError>
        ensures { IfOk result (λ v. v ≡ self.now) }
    {
        match self {
            Value::Int(z) => Ok(Value::Int(*z)),
            Value::Bool(b) => Ok(Value::Bool(*b)),
            Value::Str(text) => Ok(Value::Str(copy_text(text)?)),
            Value::Ref(oid) => Ok(Value::Ref(*oid)),
            Value::Nil => Ok(Value::Nil),
        }
    }
}

impl ValueType {
    /// The value that a variable, a field or a constant of this type has at first.
    pub fn default_value(self, alloc: Global) -> Value
        ensures { result ≡ default_of self }
    {
        match self {
            ValueType::Integer => Value::Int(0),
            ValueType::Boolean => Value::Bool(false),
            ValueType::Bytes => Value::Str(Seq::new(alloc)),
            ValueType::Reference => Value::Nil,
        }
    }
}

/// A count as a number of 32 bits. Want of memory where it has more: a table of such numbers is full.
pub(crate) fn number_of(count: usize) -> Result<u32, AllocError>
    ensures { IfOk result (λ number. number ≡ count) }
{
    match u32::try_from(count) {
        Ok(number) => Ok(number),
        Err(_) => Err(AllocError),
    }
}

/// A count as an Integer. Want of memory where it is above 2,147,483,647.
pub(crate) fn integer_of(count: usize) -> Result<i32, AllocError>
    ensures { IfOk result (λ number. number ≡ pos count) }
{
    match i32::try_from(count) {
        Ok(number) => Ok(number),
        Err(_) => Err(AllocError),
    }
}

/// The same text again.
pub fn copy_text(text: &Text) -> Result<Text, AllocError>
    ensures { IfOk result (λ t. t ≡ text.now) }
{
    let mut copied = Seq::new(text.allocator());
    for i in 0..text.len() {
        copied.push(*text.at(i))?;
    }
    Ok(copied)
}

/// The same values again.
pub fn copy_values(values: &Values) -> Result<Values, AllocError>
    ensures { IfOk result (λ vs. vs ≡ values.now) }
{
    let mut copied = Seq::new(values.allocator());
    for i in 0..values.len() {
        copied.push(values.at(i).copy()?)?;
    }
    Ok(copied)
}
