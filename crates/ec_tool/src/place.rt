//! The line and the column of a place in a text, both counted from 1.
ghost use Rattle.std.specs.Prelude.{◌≡◌, ◌++◌, take, OnOk};
ghost use Rattle.ec_meaning.specs.Programs.{line_of};
ghost use Rattle.ec_tool.specs.Places.{column_of, place_text};

use ec_report::lines::push_number;
use std::alloc::{AllocError, Global};

/// The bytes of a text before a place, all where the place is its end.
fn front(text: &[u8], at: u32) -> &[u8]
    ensures { result.now ≡ take at text.now }
{
    let at = at as usize;
    if at < text.len() { &text[..at] } else { text }
}

/// The line of a place.
fn line_of(text: &[u8], at: u32) -> u64
    ensures { result ≡ line_of text.now at }
{
    let mut line = 1;
    for b in front(text, at) {
        if *b == b'\n' {
            line += 1;
        }
    }
    line
}

/// The column of a place.
fn column_of(text: &[u8], at: u32) -> u64
    ensures { result ≡ column_of text.now at }
{
    let mut column = 1;
    for b in front(text, at) {
        if *b == b'\n' {
            column = 1;
        } else {
            column += 1;
        }
    }
    column
}

/// `line 3 column 14`
pub(crate) fn push_place(
    alloc: Global,
    text: &[u8],
    at: u32,
    out: &mut Vec<u8>,
) -> Result<(), AllocError>
    ensures { OnOk result (out.new.items ≡ out.old.items ++ place_text text.now at) }
{
    out.extend_from_slice(b"line ")?;
    push_number(alloc, line_of(text, at), out)?;
    out.extend_from_slice(b" column ")?;
    push_number(alloc, column_of(text, at), out)
}
