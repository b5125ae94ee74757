//! The vector types of a text, read from its tokens.
ghost use Rattle.std.specs.Prelude.{◌≡◌, IfOk};
ghost use Rattle.ec_types.specs.Types.{type_named};
ghost use Rattle.ec_vector_types.specs.Written as spec;

use ec_base::list::Seq;
use ec_lexer::token::{Reserved, Token, TokenKind};
use ec_meaning::types::vector_type;
use ec_types::conform::TypeTable;
use ec_types::conform::static_type::{Plain, StaticType, vector_of};
use ec_world::class::VectorType;
use std::alloc::{AllocError, Global};

/// The vector types that are written in a text with these tokens, in the order of the text, as often as they are written. Of
/// `vector.of[vector.of[T]]` the outer one comes before the inner one. The error is want of memory, or a named type whose number has more
/// than 32 bits, or as many vectors around one another.
pub fn written_vectors(
    alloc: Global,
    table: &TypeTable,
    tokens: &[Token],
) -> Result<Seq<VectorType>, AllocError>
    ensures { IfOk result (λ types. types ≡ spec.written_vectors table.now.names tokens.now) }
{
    let mut types = Seq::new(alloc);
    let mut left = tokens;
    while let [first, rest @ ..] = left {
        if is_vector(first) {
            types.push(vector_type(type_at(table, left)?)?)?;
        }
        left = rest;
    }
    Ok(types)
}

/// Whether a token is the word `vector`.
fn is_vector(token: &Token) -> bool
    ensures { result ≡ spec.is_vector token.now }
{
    match token.kind {
        TokenKind::Reserved(Reserved::Vector) => true,
        _ => false,
    }
}

/// The type that tokens begin with. The error is want of memory, or as many vectors around one another as can't be counted.
fn type_at(table: &TypeTable, tokens: &[Token]) -> Result<StaticType, AllocError>
    ensures { IfOk result (λ t. t ≡ spec.type_at table.now.names tokens.now) }
{
    match tokens {
        [first, _, _, _, rest @ ..] if is_vector(first) => {
            vector_of(type_at(table, rest)?).ok_or(AllocError)
        }
        [first, ..] => plain_at(table, first),
        [] => Ok(StaticType::Unknown),
    }
}

/// The type that one token names. The error is want of memory.
fn plain_at(table: &TypeTable, token: &Token) -> Result<StaticType, AllocError>
    ensures { IfOk result (λ t. t ≡ spec.plain_at table.now.names token.now) }
{
    match &token.kind {
        TokenKind::Reserved(word) => Ok(word_type(*word)),
        TokenKind::Name(name) => named_type(table, name.as_slice()),
        TokenKind::Integer(_) | TokenKind::Literal(_) | TokenKind::Symbol(_) => {
            Ok(StaticType::Unknown)
        }
    }
}

/// The type of this name. The error is want of memory.
fn named_type(table: &TypeTable, name: &[u8]) -> Result<StaticType, AllocError>
    ensures { IfOk result (λ t. t ≡ type_named table.now.names name.now) }
{
    match table.first_named(name)? {
        Some(number) => Ok(StaticType::Plain(Plain::Named(number))),
        None => Ok(StaticType::Unknown),
    }
}

/// The type that a reserved word names.
fn word_type(word: Reserved) -> StaticType
    ensures { result ≡ spec.word_type word }
{
    match word {
        Reserved::Integer => StaticType::Plain(Plain::Integer),
        Reserved::Boolean => StaticType::Plain(Plain::Boolean),
        Reserved::String => StaticType::Plain(Plain::String),
        Reserved::Any => StaticType::Plain(Plain::Any),
        Reserved::Node => StaticType::Plain(Plain::Node),
        _ => StaticType::Unknown,
    }
}
