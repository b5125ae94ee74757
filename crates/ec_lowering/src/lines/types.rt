//! The static types of what is declared, read by numbers.
ghost use Rattle.std.specs.Prelude.{◌≡◌};
ghost use Rattle.ec_code.specs.Typing as typing;
ghost use Rattle.ec_lowering.specs.Sites.{around_by};
ghost use Rattle.ec_emission.specs.Lowered.{class_declared};
ghost use Rattle.ec_emission.specs.Types as spec;

use crate::lines::site::Site;
use ec_core::Class;
use ec_types::conform::static_type::{Plain, StaticType};
use ec_world::class::{ClassNo, PlainType, VectorType};

/// The type at a number; unknown where there is none.
pub(crate) fn type_at(types: &[StaticType], n: usize) -> StaticType
    ensures { result ≡ spec.type_at types.now n }
{
    if n < types.len() {
        types[n]
    } else {
        StaticType::Unknown
    }
}

/// The type of the own object.
pub(crate) fn own_type(site: &Site<'_>) -> StaticType
    ensures { let around = around_by site.now in result ≡ typing.class_type around.declared around.class }
{
    match site.class {
        ClassNo::Node => StaticType::Plain(Plain::Node),
        ClassNo::Program => StaticType::Plain(Plain::Any),
        ClassNo::Made(k) => match site.program.core().classes.get(k as usize) {
            Some(class) => StaticType::Plain(Plain::Named(class.number)),
            None => StaticType::Plain(Plain::Any),
        },
        ClassNo::Vector(of) => vector_static(of),
    }
}

fn vector_static(of: VectorType) -> StaticType
    ensures { result ≡ typing.vector_static of }
{
    StaticType::Vector(of.inner as usize, plain_static(of.of))
}

fn plain_static(of: PlainType) -> Plain
    ensures { result ≡ typing.plain_static of }
{
    match of {
        PlainType::Integer => Plain::Integer,
        PlainType::Boolean => Plain::Boolean,
        PlainType::Bytes => Plain::String,
        PlainType::Any => Plain::Any,
        PlainType::Node => Plain::Node,
        PlainType::Named(number) => Plain::Named(number as usize),
    }
}

/// The type of a field of the own object, by its number: the names that it captures come first.
pub(crate) fn field_type(site: &Site<'_>, n: usize) -> StaticType
    ensures { let around = around_by site.now in result ≡ spec.type_at (typing.field_types around.declared around.class) n }
{
    match site.class {
        ClassNo::Made(k) => match site.program.core().classes.get(k as usize) {
            Some(class) => class_field(class, n),
            None => StaticType::Unknown,
        },
        ClassNo::Node | ClassNo::Program | ClassNo::Vector(_) => StaticType::Unknown,
    }
}

fn class_field(class: &Class, n: usize) -> StaticType
    ensures { result ≡ spec.type_at (class_declared class.now).fields n }
{
    let captured = class.captured.as_slice();
    if n < captured.len() {
        return captured[n];
    }
    match class.fields.get(n - captured.len()) {
        Some(field) => field.of,
        None => StaticType::Unknown,
    }
}

/// The type of a constant, by its place among those with a value.
pub(crate) fn constant_type(site: &Site<'_>, n: usize) -> StaticType
    ensures { result ≡ spec.type_at (around_by site.now).constants n }
{
    match site.program.core().constants.get(n) {
        Some(constant) => constant.of,
        None => StaticType::Unknown,
    }
}
