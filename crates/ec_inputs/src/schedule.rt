//! Schedules: entries, a line each.
ghost use Rattle.std.specs.Prelude.{◌≡◌, ◌==◌, ◌+◌, ◌<◌, ◌≤◌, ◌∷◌, [], IfOk, IfErr, length, map, Ok, Err, true};
ghost use Rattle.std.specs.List.{list_all, position_or_len};
ghost use Rattle.std.specs.Char.{is_ascii_digit};
ghost use Rattle.std.specs.Str.Lines.{lines, strip_carriage_return};
ghost use Rattle.ec_inputs.specs.Schedules as spec;
ghost use Rattle.ec_inputs.specs.Schedules.{EntriesOf, IfRefused};
ghost use Rattle.ec_inputs.specs.declared.schedule.ScheduleError.TheVariants.{Memory};

use ec_world::run::Entry;
use std::alloc::{AllocError, AllocFailed, Global};
use thiserror::Error;

/// The rules of a schedule, the least first.
#[derive(Clone, Copy, PartialEq, Eq, Debug)]
pub enum ScheduleRule {
    /// The file has at most 1,048,576 bytes.
    Length,
    /// Each byte outside a comment is a tab or from blank to `~`.
    Byte,
    /// The first word of a line is `turn` or `move`.
    Word,
    /// A line is empty, `turn P`, `turn P times N` or `move O to K`, with decimal numbers.
    Form,
    /// Numbers are at most 4,294,967,295, and `N` is at least 1.
    Number,
}

/// Why a schedule gives no entries.
#[derive(Clone, Copy, PartialEq, Eq, Debug, Error)]
pub enum ScheduleError {
    /// The first line that breaks a rule, counted from 1, with the least rule that it breaks. A file that is too long
    /// breaks a rule at no line.
    #[error("the schedule breaks a rule: {rule:?}, line {line:?}")]
    Refused {
        rule: ScheduleRule,
        line: Option<u32>,
    },
    /// There was no memory.
    #[error("there was no memory")]
    Memory,
}

impl From<AllocError> for ScheduleError {
    ghost from_gives = { λ _ e. e ≡ Memory };

    fn from(_error: AllocError) -> ScheduleError {
        ScheduleError::Memory
    }
}

impl From<AllocFailed<Entry>> for ScheduleError {
    ghost from_gives = { λ _ e. e ≡ Memory };

    fn from(_error: AllocFailed<Entry>) -> ScheduleError {
        ScheduleError::Memory
    }
}

/// The most bytes of a schedule.
const LONGEST: usize = 1_048_576;

/// The entries of a schedule, in their order.
#[tactic(auto, unfolding(crate::specs::Schedules::EntriesOf))]
pub fn read_schedule(alloc: Global, bytes: &[u8]) -> Result<Vec<Entry>, ScheduleError>
    ensures entries { IfOk result (λ entries. EntriesOf bytes.now ≡ Ok entries.items) }
    ensures refused { IfErr result (λ error. IfRefused error (λ fault. EntriesOf bytes.now ≡ Err fault)) }
{
    if bytes.len() > LONGEST {
        return Err(ScheduleError::Refused {
            rule: ScheduleRule::Length,
            line: None,
        });
    }
    entries_in(alloc, bytes)
}

/// The entries of lines, or the first fault.
fn entries_in(alloc: Global, bytes: &[u8]) -> Result<Vec<Entry>, ScheduleError>
    requires { length bytes.now ≤ spec.longest }
    ensures entries { IfOk result (λ entries. spec.entries_from 1 (lines bytes.now) ≡ Ok entries.items) }
    ensures refused { IfErr result (λ error. IfRefused error (λ fault. spec.entries_from 1 (lines bytes.now) ≡ Err fault)) }
{
    let mut entries = Vec::new(alloc);
    let mut rest = bytes;
    let mut number = 1;
    while !rest.is_empty() {
        let (line, after) = first_line(rest);
        match entry_in(alloc, line)? {
            Ok(Some(entry)) => entries.push(entry)?,
            Ok(None) => {}
            Err(rule) => {
                return Err(ScheduleError::Refused {
                    rule,
                    line: Some(number),
                });
            }
        }
        rest = after;
        number += 1;
    }
    Ok(entries)
}

/// The first line of some bytes, and what stands behind its line feed.
fn first_line(bytes: &[u8]) -> (&[u8], &[u8])
    requires { 0 < length bytes.now }
    ensures lines { lines bytes.now ≡ result.0.now ∷ lines result.1.now }
    ensures less { length result.1.now < length bytes.now }
{
    let end = place_of(b'\n', bytes);
    if end < bytes.len() {
        (without_return(&bytes[..end]), &bytes[end + 1..])
    } else {
        (bytes, &bytes[end..])
    }
}

/// The place of a byte, or the length where it isn't there.
fn place_of(wanted: u8, bytes: &[u8]) -> usize
    ensures place { result ≡ position_or_len (λ b. b == wanted) bytes.now }
    ensures within { result ≤ length bytes.now }
{
    let mut at = 0;
    while at < bytes.len() && bytes[at] != wanted {
        at += 1;
    }
    at
}

/// A line without the one carriage return at its end, if it has one.
fn without_return(line: &[u8]) -> &[u8]
    ensures { result.now ≡ strip_carriage_return line.now }
{
    match line {
        [front @ .., b'\r'] => front,
        _ => line,
    }
}

/// What a line says, or the least rule that it breaks.
#[tactic(auto, unfolding(crate::specs::Schedules::entry_in))]
fn entry_in(alloc: Global, line: &[u8]) -> Result<Result<Option<Entry>, ScheduleRule>, AllocError>
    ensures { IfOk result (λ said. said ≡ spec.entry_in line.now) }
{
    let text = &line[..place_of(b'%', line)];
    if !are_plain(text) {
        return Ok(Err(ScheduleRule::Byte));
    }
    let words = words(alloc, text)?;
    Ok(entry_of(words.as_slice()))
}

fn are_plain(text: &[u8]) -> bool
    ensures { result ≡ list_all spec.is_plain text.now }
{
    text.iter()
        .all(|byte| *byte == b'\t' || (b' ' <= *byte && *byte <= b'~'))
}

/// The words of a text, between its blanks and tabs.
fn words(alloc: Global, text: &[u8]) -> Result<Vec<&[u8]>, AllocError>
    ensures { IfOk result (λ words. map (λ word. word.now) words.items ≡ spec.words text.now) }
{
    text.split(|byte| *byte == b' ' || *byte == b'\t')
        .filter(|part| !part.is_empty())
        .collect(alloc)
}

/// What the words of a line say.
fn entry_of(words: &[&[u8]]) -> Result<Option<Entry>, ScheduleRule>
    ensures { result ≡ spec.entry_of (map (λ word. word.now) words.now) }
{
    let [first, more @ ..] = words else {
        return Ok(None);
    };
    match *first {
        b"turn" => turn_by(more),
        b"move" => move_by(more),
        _ => Err(ScheduleRule::Word),
    }
}

/// What stands behind `turn`.
fn turn_by(words: &[&[u8]]) -> Result<Option<Entry>, ScheduleRule>
    ensures { result ≡ spec.turn_by (map (λ word. word.now) words.now) }
{
    match words {
        [p] => turn(p, b"1"),
        [p, times, n] if *times == b"times".as_slice() => turn(p, n),
        _ => Err(ScheduleRule::Form),
    }
}

fn turn(p: &[u8], n: &[u8]) -> Result<Option<Entry>, ScheduleRule>
    ensures { result ≡ spec.turn p.now n.now }
{
    if !is_number(p) || !is_number(n) {
        return Err(ScheduleRule::Form);
    }
    match (number(p), number(n)) {
        (Some(p), Some(times)) if 1 <= times => Ok(Some(Entry::Turn { p, times })),
        _ => Err(ScheduleRule::Number),
    }
}

/// What stands behind `move`.
fn move_by(words: &[&[u8]]) -> Result<Option<Entry>, ScheduleRule>
    ensures { result ≡ spec.move_by (map (λ word. word.now) words.now) }
{
    match words {
        [o, to, k] if *to == b"to".as_slice() => move_to(o, k),
        _ => Err(ScheduleRule::Form),
    }
}

fn move_to(o: &[u8], k: &[u8]) -> Result<Option<Entry>, ScheduleRule>
    ensures { result ≡ spec.move o.now k.now }
{
    if !is_number(o) || !is_number(k) {
        return Err(ScheduleRule::Form);
    }
    match (number(o), number(k)) {
        (Some(o), Some(k)) => Ok(Some(Entry::Move { o, k })),
        _ => Err(ScheduleRule::Number),
    }
}

/// Decimal digits, and no zero before another digit.
fn is_number(word: &[u8]) -> bool
    ensures { result ≡ spec.is_number word.now }
{
    !word.is_empty() && !has_leading_zero(word) && are_digits(word)
}

/// A zero stands before another byte.
fn has_leading_zero(word: &[u8]) -> bool
    ensures { result ≡ spec.has_leading_zero word.now }
{
    match word {
        [first, _, ..] => *first == b'0',
        _ => false,
    }
}

fn are_digits(word: &[u8]) -> bool
    ensures { result ≡ list_all is_ascii_digit word.now }
{
    word.iter().all(u8::is_ascii_digit)
}

/// The number that digits write, where it is at most 4,294,967,295.
fn number(digits: &[u8]) -> Option<u32>
    requires { list_all is_ascii_digit digits.now ≡ true }
    ensures { result ≡ spec.small_number digits.now }
{
    let mut value: u64 = 0;
    for digit in digits {
        value = value * 10 + u64::from(*digit - b'0');
        if value > u64::from(u32::MAX) {
            return None;
        }
    }
    Some(value as u32)
}
