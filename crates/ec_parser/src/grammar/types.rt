//! The grammar of names, typeobjects and types.

use super::{Act, Alternative, Bound, Opened, Part, Symbol};
use crate::terminal::Terminal;

// ID: a word that isn't reserved
pub(super) const NAME: [Alternative; 4] = [
    &[Symbol::Keep(Terminal::Name)],
    &[Symbol::Keep(Terminal::Create)],
    &[Symbol::Keep(Terminal::Putstring)],
    &[Symbol::Keep(Terminal::Count)],
];

// typeobj  = "typeobject" ID { opword ID [ "[" [ sig { "," sig } ] "]" ] [ "->" "[" sig "]" ] } "end" ID
pub(super) const TYPEOBJECT: [Alternative; 1] = [&[
    Symbol::Bound(Bound::Opens(Opened::Typeobject)),
    Symbol::Token(Terminal::Typeobject),
    Symbol::Part(Part::Name),
    Symbol::Do(Act::BeginSignatures),
    Symbol::Part(Part::Signatures),
    Symbol::Bound(Bound::Closes(Opened::Typeobject)),
    Symbol::Token(Terminal::End),
    Symbol::Part(Part::Name),
    Symbol::Do(Act::MakeTypeobject),
]];

pub(super) const SIGNATURES: [Alternative; 2] = [
    &[
        Symbol::Part(Part::OperationWord),
        Symbol::Part(Part::Name),
        Symbol::Part(Part::SignatureParameters),
        Symbol::Part(Part::SignatureResult),
        Symbol::Do(Act::PushSignature),
        Symbol::Part(Part::Signatures),
    ],
    &[],
];

pub(super) const SIGNATURE_PARAMETERS: [Alternative; 2] = [
    &[
        Symbol::Bound(Bound::Opens(Opened::Bracket)),
        Symbol::Token(Terminal::OpenBracket),
        Symbol::Do(Act::BeginTypes),
        Symbol::Part(Part::Sigs),
        Symbol::Bound(Bound::Closes(Opened::Bracket)),
        Symbol::Token(Terminal::CloseBracket),
    ],
    &[Symbol::Do(Act::BeginTypes)],
];

pub(super) const SIGS: [Alternative; 2] = [
    &[
        Symbol::Part(Part::Sig),
        Symbol::Do(Act::PushType),
        Symbol::Part(Part::MoreSigs),
    ],
    &[],
];

pub(super) const MORE_SIGS: [Alternative; 2] = [
    &[
        Symbol::Token(Terminal::Comma),
        Symbol::Part(Part::Sig),
        Symbol::Do(Act::PushType),
        Symbol::Part(Part::MoreSigs),
    ],
    &[],
];

pub(super) const SIGNATURE_RESULT: [Alternative; 2] = [
    &[
        Symbol::Token(Terminal::ResultArrow),
        Symbol::Bound(Bound::Opens(Opened::Bracket)),
        Symbol::Token(Terminal::OpenBracket),
        Symbol::Part(Part::Sig),
        Symbol::Bound(Bound::Closes(Opened::Bracket)),
        Symbol::Token(Terminal::CloseBracket),
        Symbol::Do(Act::SomeType),
    ],
    &[Symbol::Do(Act::NoType)],
];

// opword   = "operation" | "function"
pub(super) const OPERATION_WORD: [Alternative; 2] = [
    &[Symbol::Token(Terminal::Operation)],
    &[Symbol::Token(Terminal::Function)],
];

// sig      = [ ID ":" ] type
pub(super) const SIG: [Alternative; 2] = [
    &[Symbol::Part(Part::PlainType)],
    &[Symbol::Part(Part::Name), Symbol::Part(Part::AfterSigName)],
];

pub(super) const AFTER_SIG_NAME: [Alternative; 2] = [
    &[
        Symbol::Token(Terminal::Colon),
        Symbol::Part(Part::Type),
        Symbol::Do(Act::DropName),
    ],
    &[Symbol::Do(Act::NamedType)],
];

// type     = "integer" | "boolean" | "string" | "any" | "node" | ID | "vector" "." "of" "[" type "]"
pub(super) const TYPE: [Alternative; 2] = [
    &[Symbol::Part(Part::PlainType)],
    &[Symbol::Part(Part::Name), Symbol::Do(Act::NamedType)],
];

pub(super) const PLAIN_TYPE: [Alternative; 6] = [
    &[
        Symbol::Keep(Terminal::Integer),
        Symbol::Do(Act::TypeInteger),
    ],
    &[
        Symbol::Keep(Terminal::Boolean),
        Symbol::Do(Act::TypeBoolean),
    ],
    &[Symbol::Keep(Terminal::String), Symbol::Do(Act::TypeString)],
    &[Symbol::Keep(Terminal::Any), Symbol::Do(Act::TypeAny)],
    &[Symbol::Keep(Terminal::Node), Symbol::Do(Act::TypeNode)],
    &[
        Symbol::Keep(Terminal::Vector),
        Symbol::Token(Terminal::Dot),
        Symbol::Token(Terminal::Of),
        Symbol::Bound(Bound::Opens(Opened::Bracket)),
        Symbol::Token(Terminal::OpenBracket),
        Symbol::Part(Part::Type),
        Symbol::Bound(Bound::Closes(Opened::Bracket)),
        Symbol::Token(Terminal::CloseBracket),
        Symbol::Do(Act::TypeVector),
    ],
];
