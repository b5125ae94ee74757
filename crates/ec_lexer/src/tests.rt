//! Texts with their tokens, and texts with their faults.
use super::*;
use std::process::Abort;
use std::test::Fail;
use token::{Reserved, Symbol};

/// What a token is to be.
#[derive(Clone, Copy)]
enum Wanted {
    Reserved(Reserved),
    Name(&'static [u8]),
    Integer(u32),
    Literal(&'static [u8]),
    Symbol(Symbol),
}

fn is_wanted(wanted: Wanted, kind: &TokenKind) -> bool {
    match (wanted, kind) {
        (Wanted::Reserved(a), TokenKind::Reserved(b)) => a == *b,
        (Wanted::Name(a), TokenKind::Name(b)) => a == b.as_slice(),
        (Wanted::Integer(a), TokenKind::Integer(b)) => a == *b,
        (Wanted::Literal(a), TokenKind::Literal(b)) => a == b.as_slice(),
        (Wanted::Symbol(a), TokenKind::Symbol(b)) => a == *b,
        _ => false,
    }
}

/// The text has these tokens, one for each.
fn has_kinds(
    rt: &impl Abort,
    alloc: Global,
    text: &[u8],
    wanted: &[Wanted],
) -> Result<(), LexError> {
    let tokens = lex(alloc, text)?;
    assert_eq!(rt; tokens.len(), wanted.len());
    for (token, kind) in tokens.as_slice().iter().zip(wanted.iter()) {
        assert!(rt; is_wanted(*kind, &token.kind));
    }
    Ok(())
}

/// The fault of a text.
fn fault_of(alloc: Global, text: &[u8]) -> Option<(LexFault, u32)> {
    match lex(alloc, text) {
        Err(LexError::Refused { at, kind }) => Some((kind, at)),
        _ => None,
    }
}

#[test]
fn words_are_reserved_in_any_case(rt: HostRuntime) -> Result<(), Fail> {
    let texts: [&[u8]; 2] = [
        b"and any as assert at attached boolean class condition const else elseif end exit export \
          failure false fix function if immutable initially integer isfixed loop monitor move nil \
          node object of operation or process refix return self signal stdout string then to true \
          typeobject unfix var vector view visit wait when",
        b"And ANY As ASSERT At ATTACHED Boolean CLASS Condition CONST Else ELSEIF End EXIT Export \
          FAILURE False FIX Function IF Immutable INITIALLY Integer ISFIXED Loop MONITOR Move NIL \
          Node OBJECT Of OPERATION Or PROCESS Refix RETURN Self SIGNAL Stdout STRING Then TO True \
          TYPEOBJECT Unfix VAR Vector VIEW Visit WAIT When",
    ];
    let wanted = [
        Wanted::Reserved(Reserved::And),
        Wanted::Reserved(Reserved::Any),
        Wanted::Reserved(Reserved::As),
        Wanted::Reserved(Reserved::Assert),
        Wanted::Reserved(Reserved::At),
        Wanted::Reserved(Reserved::Attached),
        Wanted::Reserved(Reserved::Boolean),
        Wanted::Reserved(Reserved::Class),
        Wanted::Reserved(Reserved::Condition),
        Wanted::Reserved(Reserved::Const),
        Wanted::Reserved(Reserved::Else),
        Wanted::Reserved(Reserved::Elseif),
        Wanted::Reserved(Reserved::End),
        Wanted::Reserved(Reserved::Exit),
        Wanted::Reserved(Reserved::Export),
        Wanted::Reserved(Reserved::Failure),
        Wanted::Reserved(Reserved::False),
        Wanted::Reserved(Reserved::Fix),
        Wanted::Reserved(Reserved::Function),
        Wanted::Reserved(Reserved::If),
        Wanted::Reserved(Reserved::Immutable),
        Wanted::Reserved(Reserved::Initially),
        Wanted::Reserved(Reserved::Integer),
        Wanted::Reserved(Reserved::Isfixed),
        Wanted::Reserved(Reserved::Loop),
        Wanted::Reserved(Reserved::Monitor),
        Wanted::Reserved(Reserved::Move),
        Wanted::Reserved(Reserved::Nil),
        Wanted::Reserved(Reserved::Node),
        Wanted::Reserved(Reserved::Object),
        Wanted::Reserved(Reserved::Of),
        Wanted::Reserved(Reserved::Operation),
        Wanted::Reserved(Reserved::Or),
        Wanted::Reserved(Reserved::Process),
        Wanted::Reserved(Reserved::Refix),
        Wanted::Reserved(Reserved::Return),
        Wanted::Reserved(Reserved::Self_),
        Wanted::Reserved(Reserved::Signal),
        Wanted::Reserved(Reserved::Stdout),
        Wanted::Reserved(Reserved::String),
        Wanted::Reserved(Reserved::Then),
        Wanted::Reserved(Reserved::To),
        Wanted::Reserved(Reserved::True),
        Wanted::Reserved(Reserved::Typeobject),
        Wanted::Reserved(Reserved::Unfix),
        Wanted::Reserved(Reserved::Var),
        Wanted::Reserved(Reserved::Vector),
        Wanted::Reserved(Reserved::View),
        Wanted::Reserved(Reserved::Visit),
        Wanted::Reserved(Reserved::Wait),
        Wanted::Reserved(Reserved::When),
    ];
    for text in texts {
        has_kinds(&rt, rt.alloc(), text, &wanted)?;
    }
    Ok(())
}

#[test]
fn words_beside_reserved_ones_are_names(rt: HostRuntime) -> Result<(), Fail> {
    let text = b"andy _if selfish End_ IF2 create PutString COUNT x _ a1_B";
    let wanted = [
        Wanted::Name(b"andy"),
        Wanted::Name(b"_if"),
        Wanted::Name(b"selfish"),
        Wanted::Name(b"End_"),
        Wanted::Name(b"IF2"),
        Wanted::Name(b"create"),
        Wanted::Name(b"PutString"),
        Wanted::Name(b"COUNT"),
        Wanted::Name(b"x"),
        Wanted::Name(b"_"),
        Wanted::Name(b"a1_B"),
    ];
    has_kinds(&rt, rt.alloc(), text, &wanted)?;
    Ok(())
}

#[test]
fn symbols_stand_apart(rt: HostRuntime) -> Result<(), Fail> {
    let text = b"<- -> ( ) [ ] , : . + - * / # || == !== = != < <= > >= !";
    let wanted = [
        Wanted::Symbol(Symbol::LeftArrow),
        Wanted::Symbol(Symbol::RightArrow),
        Wanted::Symbol(Symbol::OpenParenthesis),
        Wanted::Symbol(Symbol::CloseParenthesis),
        Wanted::Symbol(Symbol::OpenBracket),
        Wanted::Symbol(Symbol::CloseBracket),
        Wanted::Symbol(Symbol::Comma),
        Wanted::Symbol(Symbol::Colon),
        Wanted::Symbol(Symbol::Dot),
        Wanted::Symbol(Symbol::Plus),
        Wanted::Symbol(Symbol::Minus),
        Wanted::Symbol(Symbol::Star),
        Wanted::Symbol(Symbol::Slash),
        Wanted::Symbol(Symbol::Hash),
        Wanted::Symbol(Symbol::DoubleBar),
        Wanted::Symbol(Symbol::DoubleEqual),
        Wanted::Symbol(Symbol::BangDoubleEqual),
        Wanted::Symbol(Symbol::Equal),
        Wanted::Symbol(Symbol::BangEqual),
        Wanted::Symbol(Symbol::Less),
        Wanted::Symbol(Symbol::LessEqual),
        Wanted::Symbol(Symbol::Greater),
        Wanted::Symbol(Symbol::GreaterEqual),
        Wanted::Symbol(Symbol::Bang),
    ];
    has_kinds(&rt, rt.alloc(), text, &wanted)?;
    Ok(())
}

#[test]
fn the_longest_symbol_is_taken(rt: HostRuntime) -> Result<(), Fail> {
    let text = b"<--<->=!====!!=||<==";
    let wanted = [
        Wanted::Symbol(Symbol::LeftArrow),
        Wanted::Symbol(Symbol::Minus),
        Wanted::Symbol(Symbol::LeftArrow),
        Wanted::Symbol(Symbol::GreaterEqual),
        Wanted::Symbol(Symbol::BangDoubleEqual),
        Wanted::Symbol(Symbol::DoubleEqual),
        Wanted::Symbol(Symbol::Bang),
        Wanted::Symbol(Symbol::BangEqual),
        Wanted::Symbol(Symbol::DoubleBar),
        Wanted::Symbol(Symbol::LessEqual),
        Wanted::Symbol(Symbol::Equal),
    ];
    has_kinds(&rt, rt.alloc(), text, &wanted)?;
    Ok(())
}

#[test]
fn integers_and_literals_have_their_values(rt: HostRuntime) -> Result<(), Fail> {
    let text =
        b"0 007 2147483647 00000000000012ab \"\" \" %~\" \"\\n\\t\\\\\\\"\" % $ \" \xff \r 9999999999\n5";
    let wanted = [
        Wanted::Integer(0),
        Wanted::Integer(7),
        Wanted::Integer(2147483647),
        Wanted::Integer(12),
        Wanted::Name(b"ab"),
        Wanted::Literal(b""),
        Wanted::Literal(b" %~"),
        Wanted::Literal(b"\n\t\\\""),
        Wanted::Integer(5),
    ];
    has_kinds(&rt, rt.alloc(), text, &wanted)?;
    Ok(())
}

#[test]
fn tokens_have_their_places(rt: HostRuntime) -> Result<(), Fail> {
    let places = [(0, 5), (6, 7), (8, 10), (11, 14), (17, 21), (21, 22)];
    let tokens = lex(rt.alloc(), b"const n <- 214%c\n\"\\n\")")?;
    assert_eq!(rt; tokens.len(), 6);
    for (token, (from, to)) in tokens.as_slice().iter().zip(places.iter()) {
        assert_eq!(rt;
            token.at,
            Span {
                from: *from,
                to: *to
            }
        );
    }
    Ok(())
}

#[test]
fn texts_are_refused_at_their_first_fault(rt: HostRuntime) -> Result<(), Fail> {
    let cases: [(&[u8], LexFault, u32); 28] = [
        (b"const n <- $", LexFault::StrayByte, 11),
        (b"\x00", LexFault::StrayByte, 0),
        (b"a\xff", LexFault::StrayByte, 1),
        (b"'", LexFault::StrayByte, 0),
        (b"a | b", LexFault::StrayByte, 2),
        (b"|||", LexFault::StrayByte, 2),
        (b"{", LexFault::StrayByte, 0),
        (b"a\x0c", LexFault::StrayByte, 1),
        (b"\"a\tb\"", LexFault::StrayByte, 2),
        (b"\"\r\"", LexFault::StrayByte, 1),
        (b"\"\x7f\"", LexFault::StrayByte, 1),
        (b"\"\xc3\xa9\"", LexFault::StrayByte, 1),
        (b"\"\x1f", LexFault::StrayByte, 1),
        (b"const s <- \"ab", LexFault::UnclosedString, 11),
        (b"\"", LexFault::UnclosedString, 0),
        (b"\"ab\ncd\"", LexFault::UnclosedString, 0),
        (b"\"ab\\", LexFault::UnclosedString, 0),
        (b"x\"ab\\\n", LexFault::UnclosedString, 1),
        (b"\"ab\\\"", LexFault::UnclosedString, 0),
        (b"const n <- \"a\\q\"", LexFault::UnknownEscape, 13),
        (b"\"\\N\"", LexFault::UnknownEscape, 1),
        (b"\"\\\\\\\r\"", LexFault::UnknownEscape, 3),
        (b"\"\\0", LexFault::UnknownEscape, 1),
        (b"const n <- 2147483648", LexFault::LargeInteger, 11),
        (b"1 0009999999999a", LexFault::LargeInteger, 2),
        (b"18446744073709551616", LexFault::LargeInteger, 0),
        (b"% \"$\r\n $ \"", LexFault::StrayByte, 7),
        (b"2147483648$\"", LexFault::LargeInteger, 0),
    ];
    for (text, kind, at) in cases {
        assert_eq!(rt; fault_of(rt.alloc(), text), Some((kind, at)));
    }
    Ok(())
}

/// A text of a byte again and again.
fn repeated(alloc: Global, byte: u8, count: usize) -> Result<Vec<u8>, AllocError> {
    vec![in alloc; byte; count]
}

#[test]
fn a_long_text_is_refused_before_all_else(rt: HostRuntime) -> Result<(), Fail> {
    let longest = repeated(rt.alloc(), b' ', 1_048_576)?;
    assert_eq!(rt; lex(rt.alloc(), &longest)?.len(), 0);
    let longer = repeated(rt.alloc(), b'$', 1_048_577)?;
    let too_long = Some((LexFault::TextTooLong, 1_048_576));
    assert_eq!(rt; fault_of(rt.alloc(), &longer), too_long);
    Ok(())
}
