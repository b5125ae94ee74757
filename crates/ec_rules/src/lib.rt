//! The static rules of the whole language over its tree.
#![tactic(auto)]

ghost use Rattle.std.specs.Prelude.{◌≡◌};
ghost use Rattle.ec_rules.specs.Rules as spec;

pub mod assignments;
pub mod calls;
pub mod captures;
pub mod faults;
pub mod form;
pub mod judged;
pub mod measures;
pub mod names;
pub mod operands;

use ec_ast::Span;

/// A static rule that a tree can break.
#[derive(Clone, Copy, Debug, PartialEq, Eq)]
pub enum Rule {
    /// A name that is used as a type or a value names one, and `self` stands in an object constructor or a class.
    UnknownName,
    /// No name is declared twice where its declarations meet.
    DoubledName,
    /// The name behind an `end` is that of what ends, and that of a class or typeobject is its constant's.
    EndName,
    /// A value is of a type that its place takes.
    Mismatch,
    /// The receiver of a call has an operation of that name.
    NoOperation,
    /// A call has as many arguments as the operation has parameters, and a result where a value is needed.
    Arity,
    /// Only variables of the own operation or object are assigned to.
    Assignment,
    /// Conditions belong to monitored objects, whose operations alone wait for them and signal them.
    Condition,
    /// What is attached is a reference.
    AttachedValue,
    /// An `exit` stands in a loop.
    ExitOutside,
    /// A program has at most 1,000 typeobjects, classes and object constructors.
    ManyTypes,
    /// A program has at most 4,000 operations.
    ManyOperations,
    /// An object has at most 100 fields.
    ManyFields,
    /// An operation or a class has at most 16 parameters.
    ManyParameters,
    /// The named variables of an operation and its values at one time are at most 100.
    ManyVariables,
    /// An operation has at most 4,000 tree nodes, and a string literal at most 65,535 bytes.
    Size,
}

/// A rule that a tree breaks, and where.
#[derive(Clone, Copy, Debug, PartialEq, Eq)]
pub struct StaticFault {
    pub rule: Rule,
    pub at: Span,
}

/// The number of a rule in the table of rules, as it is printed: from 1 to 16.
pub fn number_of(rule: Rule) -> u8
    ensures { result ≡ spec.number_of rule }
{
    match rule {
        Rule::UnknownName => 1,
        Rule::DoubledName => 2,
        Rule::EndName => 3,
        Rule::Mismatch => 4,
        Rule::NoOperation => 5,
        Rule::Arity => 6,
        Rule::Assignment => 7,
        Rule::Condition => 8,
        Rule::AttachedValue => 9,
        Rule::ExitOutside => 10,
        Rule::ManyTypes => 11,
        Rule::ManyOperations => 12,
        Rule::ManyFields => 13,
        Rule::ManyParameters => 14,
        Rule::ManyVariables => 15,
        Rule::Size => 16,
    }
}
