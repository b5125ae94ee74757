//! Calls and indices: what they call, and their faults.
ghost use Rattle.std.specs.Prelude.{◌≡◌, Some, IfOk};
ghost use Rattle.std.specs.Option.{option_copied};
ghost use Rattle.ec_rules.specs.Calls as spec;
ghost use Rattle.ec_rules.specs.Rules.{noted};
ghost use Rattle.ec_types.specs.Scopes.{innermost};

use crate::Rule;
use crate::faults::Faults;
use crate::judged::Judged;
use crate::operands::{INTEGER, STRING, Wanted, fits, must_conform, wants};
use ec_ast::{Name, Span};
use ec_types::conform::TypeTable;
use ec_types::conform::operations::NamedOperation;
use ec_types::conform::static_type::{Plain, StaticType, element_of, known};
use ec_types::names::is_same;
use ec_types::scopes::{ClassMeant, Scope};
use std::alloc::AllocError;

/// What stands before a call or an index.
#[derive(Clone, Copy)]
pub enum Receiver<'a> {
    /// The class of a creation.
    Creation(&'a Name),
    /// `self`, which may be in parentheses.
    Own,
    /// An expression, with its type where it has one.
    Typed(Option<StaticType>),
}

/// What a call calls.
#[derive(Clone, Copy, Debug)]
pub enum Callee<'a> {
    /// An operation, with the types of its parameters and of its result, where it has one.
    Called(&'a [StaticType], Option<StaticType>),
    /// The receiver has no such operation.
    Missing,
    /// The receiver has no type.
    Whatever,
}

/// Whether a name is a word. Case isn't significant.
pub fn is_word(name: &Name, word: &str) -> bool
    ensures { result ≡ spec.is_word name.now word.now }
{
    is_same(name.text.as_slice(), word.as_bytes())
}

fn called_as(operation: Option<&NamedOperation>) -> Callee<'_>
    ensures { spec.callee_seen result ≡ spec.called_as (option_copied operation.entry) }
{
    match operation {
        None => Callee::Missing,
        Some(o) => Callee::Called(o.parameters.as_slice(), o.result),
    }
}

fn callee_if(is_there: bool, parameters: &[StaticType], of: StaticType) -> Callee<'_>
    ensures { spec.callee_seen result ≡ spec.callee_if is_there (spec.Called parameters.now (Some of)) }
{
    if is_there {
        Callee::Called(parameters, Some(of))
    } else {
        Callee::Missing
    }
}

fn callee_of_string<'a>(name: &Name) -> Callee<'a>
    ensures { spec.callee_seen result ≡ spec.callee_of_string name.now }
{
    if is_word(name, "length") {
        return Callee::Called(&[], Some(INTEGER));
    }
    callee_if(is_word(name, "getSlice"), &[INTEGER, INTEGER], STRING)
}

fn callee_of_type<'a>(
    table: &'a TypeTable,
    of: StaticType,
    name: &Name,
) -> Result<Callee<'a>, AllocError>
    ensures { IfOk result (λ c. spec.callee_seen c ≡ spec.callee_of_type table.now of name.now) }
{
    Ok(match of {
        StaticType::Plain(Plain::Integer) | StaticType::Plain(Plain::Boolean) => callee_if(
            is_word(name, "asString"),
            &[],
            STRING,
        ),
        StaticType::Plain(Plain::String) => callee_of_string(name),
        StaticType::Plain(Plain::Any) | StaticType::Plain(Plain::Node) => Callee::Missing,
        StaticType::Plain(Plain::Named(number)) => called_as(table.operation(
            number,
            name.text.as_slice(),
        )?),
        StaticType::Vector(_, _) => callee_if(is_word(name, "size"), &[], INTEGER),
        StaticType::Nil => Callee::Missing,
        StaticType::Unknown => Callee::Whatever,
    })
}

fn callee_of_self<'a>(scope: &'a Scope, name: &Name) -> Result<Callee<'a>, AllocError>
    ensures { IfOk result (λ c. spec.callee_seen c ≡ spec.callee_of_self scope.now (innermost scope.now) name.now) }
{
    match scope.innermost() {
        None => Ok(Callee::Whatever),
        Some(_) => Ok(called_as(scope.own_operation(name.text.as_slice())?)),
    }
}

fn callee_of_class(class: Option<&ClassMeant>) -> Callee<'_>
    ensures { spec.callee_seen result ≡ spec.callee_of_class (option_copied class.entry) }
{
    match class {
        None => Callee::Whatever,
        Some(c) => Callee::Called(
            c.parameters.as_slice(),
            Some(StaticType::Plain(Plain::Named(c.number))),
        ),
    }
}

/// What a call of a name behind a receiver calls. The error is want of memory.
pub fn callee_of<'a>(
    scope: &'a Scope,
    before: Receiver<'_>,
    name: &Name,
) -> Result<Callee<'a>, AllocError>
    ensures { IfOk result (λ c. spec.callee_seen c ≡ spec.callee scope.now (spec.receiver_seen before.entry) name.now) }
{
    match before {
        Receiver::Creation(class) => Ok(callee_of_class(scope.class_named(class.text.as_slice())?)),
        Receiver::Own => callee_of_self(scope, name),
        Receiver::Typed(None) => Ok(Callee::Whatever),
        Receiver::Typed(Some(of)) => callee_of_type(&scope.table, of, name),
    }
}

// ---- rules

fn is_arity(needed: bool, callee: Callee<'_>, arguments: usize) -> bool
    ensures { result ≡ spec.is_arity needed (spec.callee_seen callee.entry) arguments }
{
    match callee {
        Callee::Called(parameters, result) => parameters.len() == arguments
            && (!needed || result.is_some()),
        Callee::Missing | Callee::Whatever => true,
    }
}

fn arguments_fit(
    faults: &mut Faults,
    table: &TypeTable,
    parameters: &[StaticType],
    arguments: &[Judged],
)
    ensures { faults.new ≡ noted faults.old (spec.wrong_arguments_for table.now parameters.now arguments.now) }
{
    for (wanted, argument) in parameters.iter().zip(arguments) {
        must_conform(faults, table, *wanted, argument);
    }
}

/// The faults of a call, with what is found of its arguments.
pub fn call(
    faults: &mut Faults,
    table: &TypeTable,
    needed: bool,
    callee: Callee<'_>,
    name: &Name,
    arguments: &[Judged],
)
    ensures { faults.new ≡ noted faults.old (spec.call_faults table.now needed (spec.callee_seen callee.entry) name.now arguments.now) }
{
    faults.note_if(
        matches!(callee, Callee::Missing),
        Rule::NoOperation,
        name.at,
    );
    faults.note_unless(
        is_arity(needed, callee, arguments.len()),
        Rule::Arity,
        name.at,
    );
    if let Callee::Called(parameters, _) = callee {
        arguments_fit(faults, table, parameters, arguments);
    }
}

/// The faults of an index behind a chain that begins at a place.
pub fn index(faults: &mut Faults, at: Span, vector: Option<StaticType>, number: &Judged)
    ensures { faults.new ≡ noted faults.old (spec.index_faults at vector number.now) }
{
    faults.note_unless(fits(Wanted::Vector, vector), Rule::Mismatch, at);
    wants(faults, Wanted::Integer, number);
}

// ---- types

/// The type of `self`, where it stands in an object constructor or a class.
pub fn type_of_self(scope: &Scope) -> Option<StaticType>
    ensures { result ≡ spec.type_of_self scope.now }
{
    Some(StaticType::Plain(Plain::Named(scope.innermost()?.number)))
}

/// The type of a receiver, where it has one.
pub fn type_of_receiver(scope: &Scope, before: Receiver<'_>) -> Option<StaticType>
    ensures { result ≡ spec.type_of_receiver scope.now (spec.receiver_seen before.entry) }
{
    match before {
        Receiver::Creation(_) => None,
        Receiver::Own => type_of_self(scope),
        Receiver::Typed(of) => of,
    }
}

/// The type that a call gives, where it has one.
pub fn result_of(callee: Callee<'_>) -> Option<StaticType>
    ensures { result ≡ spec.result_of (spec.callee_seen callee.entry) }
{
    match callee {
        Callee::Called(_, result) => known(result?),
        Callee::Missing | Callee::Whatever => None,
    }
}

/// The type of the elements of what is indexed, where it is a vector.
pub fn type_indexed(vector: Option<StaticType>) -> Option<StaticType>
    ensures { result ≡ spec.type_indexed vector }
{
    element_of(vector?)
}
