//! What tokens are to the grammar.

ghost use Rattle.std.specs.Prelude.{◌≡◌, IfOk};
ghost use Rattle.ec_parser.specs.Terminals as spec;

use ec_ast::Text;
use ec_lexer::token::{Reserved, Symbol, Token, TokenKind};
use sqlite_items::Items;
use std::alloc::{AllocError, Global};

/// What a token is to the grammar.
#[derive(Clone, Copy, PartialEq, Eq)]
pub enum Terminal {
    And,
    Any,
    As,
    Assert,
    At,
    Attached,
    Boolean,
    Class,
    Condition,
    Const,
    Else,
    Elseif,
    End,
    Exit,
    Export,
    Failure,
    False,
    Fix,
    Function,
    If,
    Immutable,
    Initially,
    Integer,
    Isfixed,
    Loop,
    Monitor,
    Move,
    Nil,
    Node,
    Object,
    Of,
    Operation,
    Or,
    Process,
    Refix,
    Return,
    Self_,
    Signal,
    Stdout,
    String,
    Then,
    To,
    True,
    Typeobject,
    Unfix,
    Var,
    Vector,
    View,
    Visit,
    Wait,
    When,
    /// A word that is neither reserved nor one of the three below.
    Name,
    /// The word `create`, which isn't reserved.
    Create,
    /// The word `putstring`, which isn't reserved.
    Putstring,
    /// The word `count`, which isn't reserved.
    Count,
    /// `INT`
    Number,
    /// `STRING`
    Literal,
    /// `<-`
    Arrow,
    /// `->`
    ResultArrow,
    /// `(`
    OpenParenthesis,
    /// `)`
    CloseParenthesis,
    /// `[`
    OpenBracket,
    /// `]`
    CloseBracket,
    /// `,`
    Comma,
    /// `:`
    Colon,
    /// `.`
    Dot,
    /// `+`
    Plus,
    /// `-`
    Minus,
    /// `*`
    Times,
    /// `/`
    Over,
    /// `#`
    Remainder,
    /// `||`
    Concat,
    /// `==`
    Same,
    /// `!==`
    NotSame,
    /// `=`
    Equal,
    /// `!=`
    NotEqual,
    /// `<`
    Less,
    /// `<=`
    LessEqual,
    /// `>`
    More,
    /// `>=`
    MoreEqual,
    /// `!`
    Bang,
    /// What stands behind the last token. No token is of it.
    EndOfText,
}

/// What a token is to the grammar.
#[tactic(auto, unfolding(crate::specs::Terminals::terminal_of_kind))]
pub(crate) fn terminal_of(token: &Token) -> Terminal
    ensures { result ≡ spec.terminal_of token.now }
{
    match &token.kind {
        TokenKind::Reserved(word) => terminal_of_word(*word),
        TokenKind::Name(text) => terminal_of_name(text.as_slice()),
        TokenKind::Integer(_) => Terminal::Number,
        TokenKind::Literal(_) => Terminal::Literal,
        TokenKind::Symbol(symbol) => terminal_of_symbol(*symbol),
    }
}

/// Case isn't significant.
#[tactic(auto, unfolding(crate::specs::Terminals::terminal_of_name))]
fn terminal_of_name(text: &[u8]) -> Terminal
    ensures { result ≡ spec.terminal_of_name text.now }
{
    if text.eq_ignore_ascii_case(b"create") {
        return Terminal::Create;
    }
    if text.eq_ignore_ascii_case(b"putstring") {
        return Terminal::Putstring;
    }
    if text.eq_ignore_ascii_case(b"count") {
        return Terminal::Count;
    }
    Terminal::Name
}

fn terminal_of_word(word: Reserved) -> Terminal
    ensures { result ≡ spec.terminal_of_word word }
{
    match word {
        Reserved::And => Terminal::And,
        Reserved::Any => Terminal::Any,
        Reserved::As => Terminal::As,
        Reserved::Assert => Terminal::Assert,
        Reserved::At => Terminal::At,
        Reserved::Attached => Terminal::Attached,
        Reserved::Boolean => Terminal::Boolean,
        Reserved::Class => Terminal::Class,
        Reserved::Condition => Terminal::Condition,
        Reserved::Const => Terminal::Const,
        Reserved::Else => Terminal::Else,
        Reserved::Elseif => Terminal::Elseif,
        Reserved::End => Terminal::End,
        Reserved::Exit => Terminal::Exit,
        Reserved::Export => Terminal::Export,
        Reserved::Failure => Terminal::Failure,
        Reserved::False => Terminal::False,
        Reserved::Fix => Terminal::Fix,
        Reserved::Function => Terminal::Function,
        Reserved::If => Terminal::If,
        Reserved::Immutable => Terminal::Immutable,
        Reserved::Initially => Terminal::Initially,
        Reserved::Integer => Terminal::Integer,
        Reserved::Isfixed => Terminal::Isfixed,
        Reserved::Loop => Terminal::Loop,
        Reserved::Monitor => Terminal::Monitor,
        Reserved::Move => Terminal::Move,
        Reserved::Nil => Terminal::Nil,
        Reserved::Node => Terminal::Node,
        Reserved::Object => Terminal::Object,
        Reserved::Of => Terminal::Of,
        Reserved::Operation => Terminal::Operation,
        Reserved::Or => Terminal::Or,
        Reserved::Process => Terminal::Process,
        Reserved::Refix => Terminal::Refix,
        Reserved::Return => Terminal::Return,
        Reserved::Self_ => Terminal::Self_,
        Reserved::Signal => Terminal::Signal,
        Reserved::Stdout => Terminal::Stdout,
        Reserved::String => Terminal::String,
        Reserved::Then => Terminal::Then,
        Reserved::To => Terminal::To,
        Reserved::True => Terminal::True,
        Reserved::Typeobject => Terminal::Typeobject,
        Reserved::Unfix => Terminal::Unfix,
        Reserved::Var => Terminal::Var,
        Reserved::Vector => Terminal::Vector,
        Reserved::View => Terminal::View,
        Reserved::Visit => Terminal::Visit,
        Reserved::Wait => Terminal::Wait,
        Reserved::When => Terminal::When,
    }
}

fn terminal_of_symbol(symbol: Symbol) -> Terminal
    ensures { result ≡ spec.terminal_of_symbol symbol }
{
    match symbol {
        Symbol::LeftArrow => Terminal::Arrow,
        Symbol::RightArrow => Terminal::ResultArrow,
        Symbol::OpenParenthesis => Terminal::OpenParenthesis,
        Symbol::CloseParenthesis => Terminal::CloseParenthesis,
        Symbol::OpenBracket => Terminal::OpenBracket,
        Symbol::CloseBracket => Terminal::CloseBracket,
        Symbol::Comma => Terminal::Comma,
        Symbol::Colon => Terminal::Colon,
        Symbol::Dot => Terminal::Dot,
        Symbol::Plus => Terminal::Plus,
        Symbol::Minus => Terminal::Minus,
        Symbol::Star => Terminal::Times,
        Symbol::Slash => Terminal::Over,
        Symbol::Hash => Terminal::Remainder,
        Symbol::DoubleBar => Terminal::Concat,
        Symbol::DoubleEqual => Terminal::Same,
        Symbol::BangDoubleEqual => Terminal::NotSame,
        Symbol::Equal => Terminal::Equal,
        Symbol::BangEqual => Terminal::NotEqual,
        Symbol::Less => Terminal::Less,
        Symbol::LessEqual => Terminal::LessEqual,
        Symbol::Greater => Terminal::More,
        Symbol::GreaterEqual => Terminal::MoreEqual,
        Symbol::Bang => Terminal::Bang,
    }
}

/// The bytes of a name or a literal, and of no other.
pub(crate) fn text_of(alloc: Global, token: &Token) -> Result<Text, AllocError>
    ensures { IfOk result (λ text. text ≡ spec.text_of token.now) }
{
    match &token.kind {
        TokenKind::Name(text) => Items::from_slice(alloc, text.as_slice()),
        TokenKind::Literal(text) => Items::from_slice(alloc, text.as_slice()),
        _ => Ok(Items::new(alloc)),
    }
}

/// The number of an integer, and of no other.
pub(crate) fn number_of(token: &Token) -> u32
    ensures { result ≡ spec.number_of token.now }
{
    match &token.kind {
        TokenKind::Integer(number) => *number,
        _ => 0,
    }
}
