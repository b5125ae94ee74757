//! A source is judged: its program, or why it is refused and where, and the line that says so.
ghost use Rattle.std.specs.Prelude.{◌≡◌, ◌<◌, ◌^◌, length, IfOk, IfErr};
ghost use Rattle.ec_check.specs.Accepted.{HasCore};
ghost use Rattle.ec_lexer.specs.Tokens.{HasTokens};
ghost use Rattle.ec_parser.specs.HasTree.{HasTree};
ghost use Rattle.ec_parser.specs.Program.{IsShallow};
ghost use Rattle.ec_tool.specs.Sources.{IsProgramText, IsErrorOf, place_of, fault_name, rule_name, refusal_name, refused_line};

use crate::place::push_place;
use ec_ast::Program;
use ec_base::list::Seq;
use ec_check::check::{CheckError, Checked, check};
use ec_lexer::error::{LexError, LexFault};
use ec_lexer::lex;
use ec_lexer::token::Token;
use ec_parser::{ParseError, parse};
use ec_rules::Rule;
use std::alloc::{AllocError, Global};

/// Why a source is refused.
#[derive(Clone, Copy, Debug, PartialEq, Eq)]
pub enum Refusal {
    /// The text has no tokens, by this fault.
    Lexical(LexFault),
    /// The tokens are no program's.
    Syntax,
    /// A token is nested over 64 deep.
    Deep,
    /// The program breaks this rule.
    Static(Rule),
}

/// Why a source is refused, and at which byte; the length of the text stands for its end.
#[derive(Clone, Copy, Debug, PartialEq, Eq)]
pub struct Refused {
    pub refusal: Refusal,
    pub at: u32,
}

/// Why there is no program.
#[derive(Clone, Copy, Debug, PartialEq, Eq)]
pub enum SourceError {
    Refused(Refused),
    /// There was no memory.
    Memory,
}

/// A source that is a program's: its tokens, and the program with its core.
#[derive(Drop)]
pub struct Accepted {
    pub tokens: Seq<Token>,
    pub checked: Checked,
}

/// A source that is a program's.
pub fn check_source(alloc: Global, text: &[u8]) -> Result<Accepted, SourceError>
    ensures program { IfOk result (λ accepted. IsProgramText text.now accepted.tokens accepted.checked.program) }
    ensures core { IfOk result (λ accepted. HasCore accepted.checked.program accepted.checked.table accepted.checked.core) }
    ensures refused { IfErr result (IsErrorOf text.now) }
{
    let tokens = tokens_of(alloc, text)?;
    let program = tree_of(alloc, text, tokens.as_slice())?;
    match check(alloc, program) {
        Ok(checked) => Ok(Accepted { tokens, checked }),
        Err(CheckError::Fault(fault)) => Err(refuse(Refusal::Static(fault.rule), fault.at.from)),
        Err(CheckError::Memory) => Err(SourceError::Memory),
    }
}

fn refuse(refusal: Refusal, at: u32) -> SourceError
    ensures { result ≡ SourceError.Refused (record { refusal = refusal; at = at }) }
{
    SourceError::Refused(Refused { refusal, at })
}

/// The tokens of a text.
fn tokens_of(alloc: Global, text: &[u8]) -> Result<Seq<Token>, SourceError>
    ensures tokens { IfOk result (HasTokens text.now) }
    ensures refused { IfErr result (IsErrorOf text.now) }
{
    match lex(alloc, text) {
        Ok(tokens) => Ok(tokens),
        Err(LexError::Refused { at, kind }) => Err(refuse(Refusal::Lexical(kind), at)),
        Err(LexError::Memory) => Err(SourceError::Memory),
    }
}

/// The tree of a text's tokens.
fn tree_of(alloc: Global, text: &[u8], tokens: &[Token]) -> Result<Program, SourceError>
    requires { HasTokens text.now tokens.now }
    ensures tree { IfOk result (λ program. HasTree tokens.now program × IsShallow tokens.now) }
    ensures refused { IfErr result (IsErrorOf text.now) }
{
    match parse(alloc, tokens) {
        Ok(program) => Ok(program),
        Err(ParseError::Syntax { token }) => {
            Err(refuse(Refusal::Syntax, place_of(text, tokens, token)))
        }
        Err(ParseError::Deep { token }) => {
            Err(refuse(Refusal::Deep, place_of(text, tokens, token)))
        }
        Err(ParseError::Memory) => Err(SourceError::Memory),
    }
}

/// Where a token begins, or the end of the text where its number is how many tokens there are.
fn place_of(text: &[u8], tokens: &[Token], token: usize) -> u32
    requires { length text.now < 2 ^ 32 }
    ensures { result ≡ place_of text.now tokens.now token }
{
    match tokens.get(token) {
        Some(token) => token.at.from,
        None => text.len() as u32,
    }
}

fn fault_name(fault: LexFault) -> &'static [u8]
    ensures { result.now ≡ fault_name fault }
{
    match fault {
        LexFault::StrayByte => b"L1",
        LexFault::UnclosedString => b"L2",
        LexFault::UnknownEscape => b"L3",
        LexFault::LargeInteger => b"L4",
        LexFault::TextTooLong => b"L5",
    }
}

/// `E` and the number of the rule.
fn rule_name(rule: Rule) -> &'static [u8]
    ensures { result.now ≡ rule_name rule }
{
    match rule {
        Rule::UnknownName => b"E1",
        Rule::DoubledName => b"E2",
        Rule::EndName => b"E3",
        Rule::Mismatch => b"E4",
        Rule::NoOperation => b"E5",
        Rule::Arity => b"E6",
        Rule::Assignment => b"E7",
        Rule::Condition => b"E8",
        Rule::AttachedValue => b"E9",
        Rule::ExitOutside => b"E10",
        Rule::ManyTypes => b"E11",
        Rule::ManyOperations => b"E12",
        Rule::ManyFields => b"E13",
        Rule::ManyParameters => b"E14",
        Rule::ManyVariables => b"E15",
        Rule::Size => b"E16",
    }
}

fn refusal_name(refusal: Refusal) -> &'static [u8]
    ensures { result.now ≡ refusal_name refusal }
{
    match refusal {
        Refusal::Lexical(fault) => fault_name(fault),
        Refusal::Syntax => b"syntax",
        Refusal::Deep => b"deep",
        Refusal::Static(rule) => rule_name(rule),
    }
}

/// `refused E3 at line 3 column 5`
pub fn refused_text(alloc: Global, text: &[u8], refused: Refused) -> Result<Vec<u8>, AllocError>
    ensures { IfOk result (λ line. line.items ≡ refused_line text.now refused.refusal refused.at) }
{
    let mut out = Vec::new(alloc);
    out.extend_from_slice(b"refused ")?;
    out.extend_from_slice(refusal_name(refused.refusal))?;
    out.extend_from_slice(b" at ")?;
    push_place(alloc, text, refused.at, &mut out)?;
    out.push(b'\n')?;
    Ok(out)
}
