//! What a text begins with.
ghost use Rattle.std.specs.Prelude.{◌≡◌, ◌≢◌, ◌<◌, ◌≤◌, ◌+◌, ◌^◌, length, slice_index, IfSome, true, false};
ghost use Rattle.std.specs.Char.{is_ascii_digit};
ghost use Rattle.std.specs.List.{prefix_len};
ghost use Rattle.ec_lexer.specs.Words as words;
ghost use Rattle.ec_lexer.specs.Lexemes as spec;

use crate::error::LexFault;
use crate::token::{Reserved, Symbol, reserved_word, symbol_of};

/// The form of a token.
#[derive(Clone, Copy, Debug, PartialEq, Eq)]
pub enum Form {
    Reserved(Reserved),
    Name,
    Integer(u32),
    Literal,
    Symbol(Symbol),
}

/// What a text begins with. A length or a place counts bytes from the text's front.
#[derive(Clone, Copy, Debug, PartialEq, Eq)]
pub enum Lexeme {
    /// The text is empty.
    End,
    /// A blank or a comment of this length.
    Separator(usize),
    /// A token of this form and length.
    Token(Form, usize),
    /// A fault at this place.
    Fault(LexFault, usize),
}

/// A class of bytes of which the longest run is taken.
#[derive(Clone, Copy, Debug, PartialEq, Eq)]
pub enum Class {
    /// A letter, a digit or `_`.
    Word,
    /// A digit.
    Digit,
    /// Anything but a line feed.
    Line,
}

/// The greatest integer that a text can have.
const GREATEST: u64 = 2_147_483_647;

/// How many bytes the longest symbols have.
const LONGEST_SYMBOL: usize = 3;

/// What a text begins with.
pub fn begins(text: &[u8]) -> Lexeme
    requires { length text.now < 2 ^ 32 }
    ensures value { result ≡ spec.begins text.now }
    ensures within { spec.Takes result (length text.now) }
{
    match text {
        [] => Lexeme::End,
        [_, ..] => begins_by_first(text),
    }
}

fn begins_by_first(text: &[u8]) -> Lexeme
    requires room { length text.now < 2 ^ 32 }
    requires some { 1 ≤ length text.now }
    ensures value { result ≡ spec.begins_by (slice_index text.now 0) text.now }
    ensures within { spec.Takes result (length text.now) }
{
    let first = byte(text, 0);
    if is_blank(first) {
        Lexeme::Separator(1)
    } else if first == b'%' {
        comment(text)
    } else if begins_word(first) {
        word(text)
    } else if first.is_ascii_digit() {
        integer(text)
    } else if first == b'"' {
        string(&text[1..])
    } else {
        symbol(text)
    }
}

fn is_blank(b: u8) -> bool
    ensures { result ≡ words.is_blank b }
{
    b == b' ' || b == b'\t' || b == b'\r' || b == b'\n'
}

fn begins_word(b: u8) -> bool
    ensures { result ≡ words.begins_word b }
{
    b.is_ascii_alphabetic() || b == b'_'
}

/// The comment that a text begins with.
fn comment(text: &[u8]) -> Lexeme
    requires { 1 ≤ length text.now }
    ensures value { result ≡ spec.comment text.now }
    ensures within { spec.Takes result (length text.now) }
{
    let line = run(Class::Line, &text[1..]);
    Lexeme::Separator(line + 1)
}

/// The word that a text begins with.
fn word(text: &[u8]) -> Lexeme
    requires { words.begins_word (slice_index text.now 0) ≡ true }
    ensures value { result ≡ spec.word text.now }
    ensures within { spec.Takes result (length text.now) }
{
    let end = run(Class::Word, text);
    Lexeme::Token(word_form(&text[..end]), end)
}

/// A word is reserved, or a name.
fn word_form(word: &[u8]) -> Form
    ensures { result ≡ spec.word_form (words.reserved word.now) }
{
    match reserved_word(word) {
        Some(reserved) => Form::Reserved(reserved),
        None => Form::Name,
    }
}

/// The integer that a text begins with.
fn integer(text: &[u8]) -> Lexeme
    requires { is_ascii_digit (slice_index text.now 0) ≡ true }
    ensures value { result ≡ spec.integer text.now }
    ensures within { spec.Takes result (length text.now) }
{
    let end = run(Class::Digit, text);
    match number_of(&text[..end]) {
        Some(number) => Lexeme::Token(Form::Integer(number), end),
        None => Lexeme::Fault(LexFault::LargeInteger, 0),
    }
}

/// The number that digits say, or None where it is over 2147483647.
fn number_of(digits: &[u8]) -> Option<u32>
    ensures small { IfSome result (λ n. (n ≡ words.number_of digits.now) × (n ≤ words.greatest)) }
    ensures large { result ≡ None → words.greatest < words.number_of digits.now }
{
    let mut number = 0u32;
    for digit in digits {
        let more = u64::from(number) * 10 + u64::from(digit.saturating_sub(b'0'));
        if more > GREATEST {
            return None;
        }
        number = more as u32;
    }
    Some(number)
}

/// How many bytes of a class a text begins with.
fn run(class: Class, text: &[u8]) -> usize
    ensures value { result ≡ prefix_len (words.is_in class) text.now }
    ensures within { result ≤ length text.now }
    ensures some { words.is_in class (slice_index text.now 0) ≡ true → 0 < length text.now → 0 < result }
{
    let mut end = 0;
    while end < text.len() && is_in(class, text[end]) {
        end += 1;
    }
    end
}

fn is_in(class: Class, b: u8) -> bool
    ensures { result ≡ words.is_in class b }
{
    match class {
        Class::Word => b.is_ascii_alphanumeric() || b == b'_',
        Class::Digit => b.is_ascii_digit(),
        Class::Line => b != b'\n',
    }
}

/// The string literal that a text begins with, whose opening quote stands before what is given.
fn string(mut left: &[u8]) -> Lexeme
    requires { length left.now < 2 ^ 32 }
    ensures value { result ≡ spec.string false 1 left.entry.now }
    ensures within { spec.Takes result (length left.entry.now + 1) }
{
    let mut is_escaped = false;
    let mut at = 1;
    while let [b, rest @ ..] = left {
        if *b == b'\n' {
            return Lexeme::Fault(LexFault::UnclosedString, 0);
        }
        if is_escaped {
            if !is_escape(*b) {
                return Lexeme::Fault(LexFault::UnknownEscape, at - 1);
            }
            is_escaped = false;
        } else if *b == b'"' {
            return Lexeme::Token(Form::Literal, at + 1);
        } else if *b == b'\\' {
            is_escaped = true;
        } else if !is_plain(*b) {
            return Lexeme::Fault(LexFault::StrayByte, at);
        }
        at += 1;
        left = rest;
    }
    Lexeme::Fault(LexFault::UnclosedString, 0)
}

fn is_escape(b: u8) -> bool
    ensures { result ≡ words.is_escape b }
{
    b == b'n' || b == b't' || b == b'\\' || b == b'"'
}

fn is_plain(b: u8) -> bool
    ensures { result ≡ words.is_plain b }
{
    32 <= b && b <= 126 && b != b'"' && b != b'\\'
}

/// The longest symbol that a text begins with.
fn symbol(text: &[u8]) -> Lexeme
    ensures value { result ≡ spec.symbol text.now }
    ensures within { spec.Takes result (length text.now) }
{
    let mut end = text.len().min(LONGEST_SYMBOL);
    while end > 0 {
        if let Some(symbol) = symbol_of(&text[..end]) {
            return Lexeme::Token(Form::Symbol(symbol), end);
        }
        end -= 1;
    }
    Lexeme::Fault(LexFault::StrayByte, 0)
}

/// The byte at a place, or 0 where there is none.
fn byte(text: &[u8], at: usize) -> u8
    ensures value { result ≡ slice_index text.now at }
    ensures within { result ≢ 0 → at < length text.now }
{
    if at < text.len() { text[at] } else { 0 }
}
