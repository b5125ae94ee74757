//! The grammar of a program and its constants.

use super::{Act, Alternative, Part, Symbol};
use crate::terminal::Terminal;

// program  = { "const" ID "<-" ( class | typeobj ) | "const" ID [ ":" type ] "<-" expr }
pub(super) const PROGRAM: [Alternative; 1] = [&[
    Symbol::Do(Act::BeginConstants),
    Symbol::Part(Part::Constants),
    Symbol::Do(Act::MakeProgram),
]];

pub(super) const CONSTANTS: [Alternative; 2] = [
    &[
        Symbol::Keep(Terminal::Const),
        Symbol::Part(Part::Name),
        Symbol::Part(Part::ConstantRest),
        Symbol::Do(Act::PushConstant),
        Symbol::Part(Part::Constants),
    ],
    &[],
];

pub(super) const CONSTANT_REST: [Alternative; 2] = [
    &[
        Symbol::Token(Terminal::Colon),
        Symbol::Part(Part::Type),
        Symbol::Do(Act::SomeType),
        Symbol::Token(Terminal::Arrow),
        Symbol::Part(Part::Expression),
        Symbol::Do(Act::ExpressionValue),
    ],
    &[
        Symbol::Do(Act::NoType),
        Symbol::Token(Terminal::Arrow),
        Symbol::Part(Part::ConstantValue),
    ],
];

pub(super) const CONSTANT_VALUE: [Alternative; 6] = [
    &[
        Symbol::Do(Act::No),
        Symbol::Part(Part::ClassRest),
        Symbol::Do(Act::ClassValue),
    ],
    &[Symbol::Part(Part::Typeobject)],
    &[
        Symbol::Keep(Terminal::Monitor),
        Symbol::Do(Act::Yes),
        Symbol::Part(Part::AfterMonitor),
    ],
    &[
        Symbol::Part(Part::NotPrefix),
        Symbol::Part(Part::AndRest),
        Symbol::Do(Act::ExpressionValue),
    ],
    &[
        Symbol::Part(Part::UnaryPrefix),
        Symbol::Part(Part::TermRest),
        Symbol::Do(Act::ExpressionValue),
    ],
    &[
        Symbol::Part(Part::Plain),
        Symbol::Do(Act::BeginLinks),
        Symbol::Part(Part::PostfixTail),
        Symbol::Do(Act::MakePostfix),
        Symbol::Part(Part::TermRest),
        Symbol::Do(Act::ExpressionValue),
    ],
];

pub(super) const AFTER_MONITOR: [Alternative; 2] = [
    &[
        Symbol::Part(Part::ClassRest),
        Symbol::Do(Act::MonitoredClassValue),
    ],
    &[
        Symbol::Part(Part::ObjectRest),
        Symbol::Do(Act::MakeConstructor),
        Symbol::Do(Act::BeginLinks),
        Symbol::Part(Part::PostfixTail),
        Symbol::Do(Act::MakePostfix),
        Symbol::Part(Part::TermRest),
        Symbol::Do(Act::ExpressionValue),
    ],
];

pub(super) const TERM_REST: [Alternative; 1] = [&[
    Symbol::Do(Act::BeginFactors),
    Symbol::Part(Part::TermTail),
    Symbol::Do(Act::MakeTerm),
    Symbol::Do(Act::BeginAddends),
    Symbol::Part(Part::SumTail),
    Symbol::Do(Act::MakeSum),
    Symbol::Part(Part::CompareTail),
    Symbol::Part(Part::AndRest),
]];

pub(super) const AND_REST: [Alternative; 1] = [&[
    Symbol::Do(Act::BeginExpressions),
    Symbol::Part(Part::AndTail),
    Symbol::Do(Act::MakeAnd),
    Symbol::Do(Act::BeginExpressions),
    Symbol::Part(Part::OrTail),
    Symbol::Do(Act::MakeOr),
]];
