//! Tokens, and the tables of reserved words and of symbols.
ghost use Rattle.std.specs.Prelude.{◌≡◌, map};
ghost use Rattle.std.specs.Str.{bytes_eq, str_eq_ignore_ascii_case};
ghost use Rattle.ec_lexer.specs.Words as spec;

use ec_ast::Span;
use ec_base::list::Seq;

/// A list of bytes.
pub type Text = Seq<u8>;

/// A token, and where it stands in the text.
#[derive(Drop)]
pub struct Token {
    pub kind: TokenKind,
    pub at: Span,
}

/// What a token is.
#[derive(Drop)]
pub enum TokenKind {
    /// A reserved word, in whatever case it is written.
    Reserved(Reserved),
    /// A word that isn't reserved, as it is written.
    Name(Text),
    /// The number that a run of digits says, at most 2147483647.
    Integer(u32),
    /// The bytes of a string literal, with the escapes replaced.
    Literal(Text),
    /// A symbol.
    Symbol(Symbol),
}

/// A reserved word.
#[derive(Clone, Copy, Debug, PartialEq, Eq)]
pub enum Reserved {
    And,
    Any,
    As,
    Assert,
    At,
    Attached,
    Boolean,
    Class,
    Condition,
    Const,
    Else,
    Elseif,
    End,
    Exit,
    Export,
    Failure,
    False,
    Fix,
    Function,
    If,
    Immutable,
    Initially,
    Integer,
    Isfixed,
    Loop,
    Monitor,
    Move,
    Nil,
    Node,
    Object,
    Of,
    Operation,
    Or,
    Process,
    Refix,
    Return,
    Self_,
    Signal,
    Stdout,
    String,
    Then,
    To,
    True,
    Typeobject,
    Unfix,
    Var,
    Vector,
    View,
    Visit,
    Wait,
    When,
}

/// The spelling of each reserved word. Case isn't significant.
pub const RESERVED: [(&[u8], Reserved); 51] = [
    (b"and", Reserved::And),
    (b"any", Reserved::Any),
    (b"as", Reserved::As),
    (b"assert", Reserved::Assert),
    (b"at", Reserved::At),
    (b"attached", Reserved::Attached),
    (b"boolean", Reserved::Boolean),
    (b"class", Reserved::Class),
    (b"condition", Reserved::Condition),
    (b"const", Reserved::Const),
    (b"else", Reserved::Else),
    (b"elseif", Reserved::Elseif),
    (b"end", Reserved::End),
    (b"exit", Reserved::Exit),
    (b"export", Reserved::Export),
    (b"failure", Reserved::Failure),
    (b"false", Reserved::False),
    (b"fix", Reserved::Fix),
    (b"function", Reserved::Function),
    (b"if", Reserved::If),
    (b"immutable", Reserved::Immutable),
    (b"initially", Reserved::Initially),
    (b"integer", Reserved::Integer),
    (b"isfixed", Reserved::Isfixed),
    (b"loop", Reserved::Loop),
    (b"monitor", Reserved::Monitor),
    (b"move", Reserved::Move),
    (b"nil", Reserved::Nil),
    (b"node", Reserved::Node),
    (b"object", Reserved::Object),
    (b"of", Reserved::Of),
    (b"operation", Reserved::Operation),
    (b"or", Reserved::Or),
    (b"process", Reserved::Process),
    (b"refix", Reserved::Refix),
    (b"return", Reserved::Return),
    (b"self", Reserved::Self_),
    (b"signal", Reserved::Signal),
    (b"stdout", Reserved::Stdout),
    (b"string", Reserved::String),
    (b"then", Reserved::Then),
    (b"to", Reserved::To),
    (b"true", Reserved::True),
    (b"typeobject", Reserved::Typeobject),
    (b"unfix", Reserved::Unfix),
    (b"var", Reserved::Var),
    (b"vector", Reserved::Vector),
    (b"view", Reserved::View),
    (b"visit", Reserved::Visit),
    (b"wait", Reserved::Wait),
    (b"when", Reserved::When),
];

/// A symbol.
#[derive(Clone, Copy, Debug, PartialEq, Eq)]
pub enum Symbol {
    /// `<-`
    LeftArrow,
    /// `->`
    RightArrow,
    /// `(`
    OpenParenthesis,
    /// `)`
    CloseParenthesis,
    /// `[`
    OpenBracket,
    /// `]`
    CloseBracket,
    /// `,`
    Comma,
    /// `:`
    Colon,
    /// `.`
    Dot,
    /// `+`
    Plus,
    /// `-`
    Minus,
    /// `*`
    Star,
    /// `/`
    Slash,
    /// `#`
    Hash,
    /// `||`
    DoubleBar,
    /// `==`
    DoubleEqual,
    /// `!==`
    BangDoubleEqual,
    /// `=`
    Equal,
    /// `!=`
    BangEqual,
    /// `<`
    Less,
    /// `<=`
    LessEqual,
    /// `>`
    Greater,
    /// `>=`
    GreaterEqual,
    /// `!`
    Bang,
}

/// The spelling of each symbol.
pub const SYMBOLS: [(&[u8], Symbol); 24] = [
    (b"<-", Symbol::LeftArrow),
    (b"->", Symbol::RightArrow),
    (b"(", Symbol::OpenParenthesis),
    (b")", Symbol::CloseParenthesis),
    (b"[", Symbol::OpenBracket),
    (b"]", Symbol::CloseBracket),
    (b",", Symbol::Comma),
    (b":", Symbol::Colon),
    (b".", Symbol::Dot),
    (b"+", Symbol::Plus),
    (b"-", Symbol::Minus),
    (b"*", Symbol::Star),
    (b"/", Symbol::Slash),
    (b"#", Symbol::Hash),
    (b"||", Symbol::DoubleBar),
    (b"==", Symbol::DoubleEqual),
    (b"!==", Symbol::BangDoubleEqual),
    (b"=", Symbol::Equal),
    (b"!=", Symbol::BangEqual),
    (b"<", Symbol::Less),
    (b"<=", Symbol::LessEqual),
    (b">", Symbol::Greater),
    (b">=", Symbol::GreaterEqual),
    (b"!", Symbol::Bang),
];

/// The reserved word that is spelled so but for case, if there is one.
pub fn reserved_word(word: &[u8]) -> Option<Reserved>
    ensures { result ≡ spec.reserved word.now }
{
    find_word(&RESERVED, word)
}

fn find_word(mut table: &[(&[u8], Reserved)], word: &[u8]) -> Option<Reserved>
    ensures { result ≡ spec.lookup_word (map (λ row. (row.0.now, row.1)) table.entry.now) word.now }
{
    while let [row, rest @ ..] = table {
        if is_same_word(row.0, word) {
            return Some(row.1);
        }
        table = rest;
    }
    None
}

fn is_same_word(a: &[u8], b: &[u8]) -> bool
    ensures { result ≡ str_eq_ignore_ascii_case a.now b.now }
{
    a.eq_ignore_ascii_case(b)
}

/// The symbol that is spelled so, if there is one.
pub fn symbol_of(bytes: &[u8]) -> Option<Symbol>
    ensures { result ≡ spec.symbol_of bytes.now }
{
    find_symbol(&SYMBOLS, bytes)
}

fn find_symbol(mut table: &[(&[u8], Symbol)], bytes: &[u8]) -> Option<Symbol>
    ensures { result ≡ spec.lookup_symbol (map (λ row. (row.0.now, row.1)) table.entry.now) bytes.now }
{
    while let [row, rest @ ..] = table {
        if is_same(row.0, bytes) {
            return Some(row.1);
        }
        table = rest;
    }
    None
}

fn is_same(a: &[u8], b: &[u8]) -> bool
    ensures { result ≡ bytes_eq a.now b.now }
{
    a == b
}
