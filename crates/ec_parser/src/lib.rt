//! The tree that tokens have. The parser keeps a list of the symbols that are still to be read; the next token chooses
//! an alternative of the part that stands first in it.
#![tactic(auto)]

ghost use Rattle.std.specs.Prelude.{◌≡◌, [], ◌∷◌, ◌++◌, IfOk, OnOk, IfSome, IfNone, MatchBool, Ok, ℕ, true, false, ◌≢◌, List};
ghost use Rattle.std.specs.Prelude.{MatchResult, IfErr};
ghost use Rattle.ec_parser.specs.Choose as table;
ghost use Rattle.ec_parser.specs.Follow.{Follows, Settles, Goes, Refuses, EndsWith, EndsNowhere};
ghost use Rattle.ec_parser.specs.Fits.{Fits};
ghost use Rattle.ec_parser.specs.Reads.{open_in};
ghost use Rattle.ec_parser.specs.HasTree.{HasTree};
ghost use Rattle.ec_parser.specs.Program.{AreShallow, IsShallow, IsCause};
ghost use Rattle.ec_parser.specs.Prefixes as reading;
ghost use Rattle.ec_ast.specs.declared.Program.{Program as AProgram};
ghost use Rattle.ec_parser.specs.declared.ParseError.TheVariants.{Memory};
ghost use Rattle.ec_parser.specs.declared.values.Values.{Values as Built};
ghost use Rattle.ec_parser.specs.Tops.{first_program};

mod acts;
mod first;
mod grammar;
mod pile;
mod terminal;
mod values;

use acts::perform;
use ec_ast::Program;
use ec_lexer::token::Token;
use first::{first, is_nullable};
use grammar::{Bound, Part, Symbol, alternatives};
use pile::Pile;
use std::alloc::{AllocError, Global};
use terminal::{Terminal, terminal_of};
use thiserror::Error;
use values::{Values, keep, no_values};

/// Why tokens have no tree. Tokens are counted from 0.
#[derive(Clone, Copy, PartialEq, Eq, Debug, Error)]
pub enum ParseError {
    /// The tokens before this one begin a program, and with it they begin none. At the end, its number is how many
    /// tokens there are: they begin a program, and are none.
    #[error("token {token} is not what a program goes on with")]
    Syntax { token: usize },
    /// The tokens up to this one begin a program, and it is the first whose nesting is over 64.
    #[error("token {token} is nested too deeply")]
    Deep { token: usize },
    /// There was no memory.
    #[error("there was no memory")]
    Memory,
}

impl From<AllocError> for ParseError {
    ghost from_gives = { λ _ e. e ≡ Memory };

    fn from(_e: AllocError) -> ParseError {
        ParseError::Memory
    }
}

/// The most nesting that a token may have.
const DEEPEST: usize = 64;

/// The tree of a program's tokens. Tokens whose nesting is at most 64 and that have a tree have this one alone.
pub fn parse(alloc: Global, tokens: &[Token]) -> Result<Program, ParseError>
    ensures tree { IfOk result (λ program. HasTree tokens.now program × IsShallow tokens.now) }
    ensures only { (program : AProgram) → HasTree tokens.now program → IsShallow tokens.now →
        MatchResult result (λ found. found ≡ program) (λ e. e ≡ Memory) }
    ensures refused { IfErr result (IsCause tokens.now) }
{
    read(alloc, tokens)
}

/// The same, by the parser's own table.
fn read(alloc: Global, tokens: &[Token]) -> Result<Program, ParseError>
    ensures found { IfOk result (λ program. (ns : List ℕ) × (ws : Built) ×
        reading.IsProgram tokens.now ns ws × AreShallow ns × (program ≡ first_program ws.programs)) }
    ensures only { (ns : List ℕ) (ws : Built) → reading.IsProgram tokens.now ns ws → AreShallow ns →
        MatchResult result (λ program. program ≡ first_program ws.programs) (λ e. e ≡ Memory) }
    ensures refused { IfErr result (reading.IsCause tokens.now) }
{
    let mut symbols = Pile::new(alloc);
    let mut values = no_values(alloc);
    symbols.push(Symbol::Part(Part::Program))?;
    for (i, token) in tokens.iter().enumerate() {
        if !step(alloc, token, &mut symbols, &mut values)? {
            return Err(ParseError::Syntax { token: i });
        }
        if nesting(&symbols) > DEEPEST {
            return Err(ParseError::Deep { token: i });
        }
    }
    if !finish(alloc, &mut symbols, &mut values)? {
        return Err(ParseError::Syntax {
            token: tokens.len(),
        });
    }
    Ok(values.programs.take())
}

/// What a list of symbols goes on with, or that nothing that begins with the next token is read by it.
#[derive(Clone, Copy)]
enum Next {
    End,
    Token(Terminal),
    Keep(Terminal),
    Stuck,
}

/// Takes a token, or says that nothing that is read begins with it.
fn step(
    alloc: Global,
    token: &Token,
    symbols: &mut Pile<Symbol>,
    values: &mut Values,
) -> Result<bool, AllocError>
    requires follows { Follows symbols.old }
    requires fits { Fits symbols.old values.old }
    ensures { IfOk result (λ taken. MatchBool taken
        (Goes token.now symbols.old values.old symbols.new values.new)
        (Refuses token.now symbols.old values.old)) }
{
    let found = terminal_of(token);
    match settle(alloc, found, symbols, values)? {
        Next::Token(kind) => Ok(same(kind, found)),
        Next::Keep(kind) => {
            if !same(kind, found) {
                return Ok(false);
            }
            keep(alloc, kind, token, values)?;
            Ok(true)
        }
        Next::End | Next::Stuck => Ok(false),
    }
}

/// Whether the list of symbols may end here.
fn finish(
    alloc: Global,
    symbols: &mut Pile<Symbol>,
    values: &mut Values,
) -> Result<bool, AllocError>
    requires follows { Follows symbols.old }
    requires fits { Fits symbols.old values.old }
    ensures { IfOk result (λ ended. MatchBool ended
        (EndsWith symbols.old values.old values.new)
        (EndsNowhere symbols.old values.old)) }
{
    match settle(alloc, Terminal::EndOfText, symbols, values)? {
        Next::End => Ok(true),
        Next::Token(_) | Next::Keep(_) | Next::Stuck => Ok(false),
    }
}

/// Opens parts, by the kind of the next token, until a token is next.
fn settle(
    alloc: Global,
    kind: Terminal,
    symbols: &mut Pile<Symbol>,
    values: &mut Values,
) -> Result<Next, AllocError>
    requires follows { Follows symbols.old }
    requires fits { Fits symbols.old values.old }
    ensures { IfOk result (λ next. Settles kind symbols.old values.old next symbols.new values.new) }
{
    'opening: loop {
        match symbols.pop() {
            None => return Ok(Next::End),
            Some(Symbol::Token(wanted)) => return Ok(Next::Token(wanted)),
            Some(Symbol::Keep(wanted)) => return Ok(Next::Keep(wanted)),
            Some(Symbol::Part(part)) => match choose(part, kind) {
                None => return Ok(Next::Stuck),
                Some(alternative) => symbols.push_all(alternative)?,
            },
            Some(Symbol::Bound(_)) => {}
            Some(Symbol::Do(act)) => perform(alloc, act, values)?,
        }
    }
}

/// The alternative of a part that goes on with a token of a kind.
fn choose(part: Part, kind: Terminal) -> Option<&'static [Symbol]>
    ensures some { IfSome result (λ r. table.choose part kind ≡ Some r.now) }
    ensures none { IfNone result (table.choose part kind ≡ None) }
{
    for alternative in alternatives(part) {
        if suits(kind, alternative) {
            return Some(*alternative);
        }
    }
    None
}

fn suits(kind: Terminal, alternative: &[Symbol]) -> bool
    ensures { result ≡ table.suits kind alternative.now }
{
    for symbol in alternative {
        match symbol {
            Symbol::Token(wanted) | Symbol::Keep(wanted) => return same(kind, *wanted),
            Symbol::Part(part) => {
                if has(kind, first(*part)) {
                    return true;
                }
                if !is_nullable(*part) {
                    return false;
                }
            }
            Symbol::Bound(_) | Symbol::Do(_) => {}
        }
    }
    true
}

fn has(kind: Terminal, kinds: &[Terminal]) -> bool
    ensures { result ≡ table.has_kind kind kinds.now }
{
    for k in kinds {
        if same(kind, *k) {
            return true;
        }
    }
    false
}

fn same(a: Terminal, b: Terminal) -> bool
    ensures value { result ≡ table.same_kind a b }
    ensures same { result ≡ true → a ≡ b }
    ensures other { result ≡ false → a ≢ b }
{
    a == b
}

/// How many nestings are open.
fn nesting(symbols: &Pile<Symbol>) -> usize
    ensures { result ≡ open_in symbols.now }
{
    let mut open = 0;
    for symbol in symbols.as_slice() {
        match symbol {
            Symbol::Bound(Bound::Opens(_)) => open = usize::saturating_sub(open, 1),
            Symbol::Bound(Bound::Closes(_)) => open += 1,
            _ => {}
        }
    }
    open
}
