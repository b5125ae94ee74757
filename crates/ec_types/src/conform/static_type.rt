//! Types, as the static rules see them.
ghost use Rattle.std.specs.Prelude.{◌≡◌, IfSome};
ghost use Rattle.ec_types.specs.Types as spec;

/// A type that isn't a vector's.
#[derive(Clone, Copy, PartialEq, Eq, Debug)]
pub enum Plain {
    Integer,
    Boolean,
    String,
    Any,
    Node,
    /// The typeobject, class or object constructor with this number, in document order from 0.
    Named(usize),
}

/// What an expression, a variable or a parameter is of.
#[derive(Clone, Copy, PartialEq, Eq, Debug)]
pub enum StaticType {
    Plain(Plain),
    /// `vector.of[..]` around so many more `vector.of[..]` around a plain type.
    Vector(usize, Plain),
    /// What the literal nil is of. No type is written so.
    Nil,
    /// What is written with a name that names no type.
    Unknown,
}

/// Whether two plain types are one.
pub fn is_same(a: Plain, b: Plain) -> bool
    ensures { result ≡ spec.is_same a b }
{
    match (a, b) {
        (Plain::Integer, Plain::Integer)
        | (Plain::Boolean, Plain::Boolean)
        | (Plain::String, Plain::String)
        | (Plain::Any, Plain::Any)
        | (Plain::Node, Plain::Node) => true,
        (Plain::Named(m), Plain::Named(n)) => m == n,
        _ => false,
    }
}

/// Whether two types are one. An unknown type is none.
pub fn is_same_type(a: StaticType, b: StaticType) -> bool
    ensures { result ≡ spec.is_same_type a b }
{
    match (a, b) {
        (StaticType::Plain(p), StaticType::Plain(q)) => is_same(p, q),
        (StaticType::Vector(m, p), StaticType::Vector(n, q)) => m == n && is_same(p, q),
        (StaticType::Nil, StaticType::Nil) => true,
        _ => false,
    }
}

/// Whether objects are of this type, and not Integers, Booleans or Strings.
pub(crate) fn is_reference(of: Plain) -> bool
    ensures { result ≡ spec.is_reference of }
{
    match of {
        Plain::Integer | Plain::Boolean | Plain::String => false,
        Plain::Any | Plain::Node | Plain::Named(_) => true,
    }
}

/// Whether values are references, nil among them, and not Integers, Booleans or Strings.
pub fn is_reference_type(of: StaticType) -> bool
    ensures { result ≡ spec.is_reference_type of }
{
    match of {
        StaticType::Plain(of) => is_reference(of),
        StaticType::Vector(_, _) | StaticType::Nil => true,
        StaticType::Unknown => false,
    }
}

/// Whether values are Integers, Booleans or Strings.
pub fn is_value(of: StaticType) -> bool
    ensures { result ≡ spec.is_value of }
{
    match of {
        StaticType::Plain(of) => !is_reference(of),
        StaticType::Vector(_, _) | StaticType::Nil | StaticType::Unknown => false,
    }
}

/// The type of vectors with elements of a type. None where there are more `vector.of` than can be counted.
pub fn vector_of(element: StaticType) -> Option<StaticType>
    ensures { IfSome result (λ t. t ≡ spec.vector_of element) }
{
    match element {
        StaticType::Plain(of) => Some(StaticType::Vector(0, of)),
        StaticType::Vector(inner, of) => Some(StaticType::Vector(inner.checked_add(1)?, of)),
        StaticType::Nil | StaticType::Unknown => Some(StaticType::Unknown),
    }
}

/// The type of a vector's elements. None where the type isn't a vector's.
pub fn element_of(of: StaticType) -> Option<StaticType>
    ensures { result ≡ spec.element_of of }
{
    match of {
        StaticType::Vector(0, of) => Some(StaticType::Plain(of)),
        StaticType::Vector(inner, of) => Some(StaticType::Vector(inner - 1, of)),
        StaticType::Plain(_) | StaticType::Nil | StaticType::Unknown => None,
    }
}

/// The type, where it is known.
pub fn known(of: StaticType) -> Option<StaticType>
    ensures { result ≡ spec.known of }
{
    match of {
        StaticType::Plain(_) | StaticType::Vector(_, _) | StaticType::Nil => Some(of),
        StaticType::Unknown => None,
    }
}
