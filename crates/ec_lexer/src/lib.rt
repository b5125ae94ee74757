//! The tokens of a text.
#![tactic(auto)]

ghost use Rattle.std.specs.Prelude.{◌⊎◌, ◌≡◌, ◌+◌, ◌-◌, ◌^◌, ◌<◌, ◌≤◌, ℕ, List, length, take, drop, IfOk, IfErr, MatchResult};
ghost use Rattle.ec_lexer.specs.Faults.{HasFault, IsCause};
ghost use Rattle.ec_lexer.specs.Lexemes as spec;
ghost use Rattle.ec_lexer.specs.Tokens.{HasTokens, token as token_of};
ghost use Rattle.ec_lexer.specs.Words as words;
ghost use Rattle.ec_lexer.specs.declared.error.LexFault.{LexFault as AFault};
ghost use Rattle.ec_lexer.specs.declared.token.Token.{Token as AToken};

pub mod error;
mod lexeme;
pub mod token;

use ec_ast::Span;
use ec_base::list::Seq;
use error::{LexError, LexFault};
use lexeme::{Form, Lexeme, begins};
use std::alloc::{AllocError, Global};
use token::{Text, Token, TokenKind};

/// How many bytes a text has at most.
pub const LONGEST_TEXT: usize = 1_048_576;

/// The tokens of a text.
///
/// `Refused` comes exactly where the text has none: as `TextTooLong` where it has over 1,048,576 bytes, and
/// else as its first fault.
pub fn lex(alloc: Global, text: &[u8]) -> Result<Seq<Token>, LexError>
    ensures tokens { IfOk result (HasTokens text.now) }
    ensures cause { IfErr result (IsCause text.now) }

    // No other tokens, no tokens beside a fault, and no other fault.
    ensures only_tokens { (tokens : List AToken) → HasTokens text.now tokens →
        MatchResult result (λ found. found ≡ tokens) (λ error. error ≡ LexError.Memory) }
    ensures only_fault { (place : ℕ) (kind : AFault) → HasFault text.now place kind →
        MatchResult result (λ _. ⊥) (λ error. (error ≡ LexError.Refused place kind) ⊎ (error ≡ LexError.Memory)) }
{
    if text.len() > LONGEST_TEXT {
        return Err(LexError::Refused {
            at: LONGEST_TEXT as u32,
            kind: LexFault::TextTooLong,
        });
    }
    let mut found = Seq::new(alloc);
    let mut at = 0;
    'reading: loop {
        let rest = &text[at..];
        match begins(rest) {
            Lexeme::End => return Ok(found),
            Lexeme::Separator(n) => at += n,
            Lexeme::Token(form, n) => {
                let token = make_token(alloc, form, at, &rest[..n])?;
                found.push(token)?;
                at += n;
            }
            Lexeme::Fault(kind, n) => {
                let place = at + n;
                return Err(LexError::Refused {
                    at: place as u32,
                    kind,
                });
            }
        }
    }
}

/// The token of this form whose bytes stand at a place of the text.
fn make_token(alloc: Global, form: Form, at: usize, bytes: &[u8]) -> Result<Token, AllocError>
    requires { at + length bytes.now < 2 ^ 32 }
    ensures { IfOk result (λ made. made ≡ token_of (spec.kind_of form bytes.now) at (length bytes.now)) }
{
    let kind = make_kind(alloc, form, bytes)?;
    let end = at + bytes.len();
    Ok(Token {
        kind,
        at: Span {
            from: at as u32,
            to: end as u32,
        },
    })
}

/// What a token of this form and these bytes is.
fn make_kind(alloc: Global, form: Form, bytes: &[u8]) -> Result<TokenKind, AllocError>
    ensures { IfOk result (λ kind. kind ≡ spec.kind_of form bytes.now) }
{
    match form {
        Form::Reserved(word) => Ok(TokenKind::Reserved(word)),
        Form::Name => Ok(TokenKind::Name(Seq::from_vec(Vec::from_slice(alloc, bytes)?))),
        Form::Integer(number) => Ok(TokenKind::Integer(number)),
        Form::Literal => Ok(TokenKind::Literal(unescaped(alloc, bytes)?)),
        Form::Symbol(symbol) => Ok(TokenKind::Symbol(symbol)),
    }
}

/// The bytes that a string literal stands for; its quotes are the first and the last of what is given.
fn unescaped(alloc: Global, literal: &[u8]) -> Result<Text, AllocError>
    ensures { IfOk result (λ text. text ≡ spec.unescaped (take (length literal.now - 2) (drop 1 literal.now))) }
{
    let mut text = Seq::new(alloc);
    if literal.len() < 2 {
        return Ok(text);
    }
    let mut left = &literal[1..literal.len() - 1];
    loop {
        match left {
            [] => return Ok(text),
            [b'\\', b, rest @ ..] => {
                text.push(unescaped_byte(*b))?;
                left = rest;
            }
            [b, rest @ ..] => {
                text.push(*b)?;
                left = rest;
            }
        }
    }
}

/// The byte that a backslash and this byte stand for.
fn unescaped_byte(b: u8) -> u8
    ensures { result ≡ words.unescaped_byte b }
{
    match b {
        b'n' => b'\n',
        b't' => b'\t',
        _ => b,
    }
}

#[cfg(test)]
mod tests;
