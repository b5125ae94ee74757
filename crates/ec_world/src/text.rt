//! What stops do with texts.
ghost use Rattle.std.specs.Prelude.{◌≡◌, ◌+◌, length, nat_le, pos, IfOk};
ghost use Rattle.std.specs.Fmt.{signed_decimal};
ghost use Rattle.ec_world.specs.Doings as doing;
ghost use Rattle.ec_world.specs.Texts as spec;

use crate::doing::Doing;
use crate::operands::{one, three, two};
use crate::process::Cause;
use crate::stop::Order;
use crate::value::{Text, Value, Values, integer_of};
use ec_base::list::Seq;
use std::alloc::{AllocError, Global};

/// The most bytes that a text has.
const LONGEST: usize = 65_535;

/// A text behind another. An error is want of memory.
pub(crate) fn concat(line: u32, operands: Values) -> Result<Option<Doing>, AllocError>
    ensures { IfOk result (λ d. d ≡ doing.concat_asks line (doing.two operands)) }
{
    let Some((s, t)) = two(operands) else {
        return Ok(None);
    };
    let (Value::Str(s), Value::Str(t)) = (s, t) else {
        return Ok(None);
    };
    if !fit(&s, &t) {
        return Ok(Some(Doing::breaking(Cause::LongText, line)));
    }
    let mut both = s;
    both.append(t)?;
    Ok(Some(Doing::giving(Value::Str(both))))
}

/// Whether a text behind another is no longer than a text may be.
fn fit(s: &Text, t: &Text) -> bool
    ensures { result ≡ nat_le (length s.now + length t.now) spec.longest }
{
    s.len() <= LONGEST && t.len() <= LONGEST - s.len()
}

/// How many bytes a text has. An error is a text of more than 2,147,483,647 bytes.
pub(crate) fn count_bytes(operands: Values) -> Result<Option<Doing>, AllocError>
    ensures { IfOk result (λ d. d ≡ doing.length_asks (doing.one operands)) }
{
    let Some(Value::Str(s)) = one(operands) else {
        return Ok(None);
    };
    Ok(Some(Doing::giving(Value::Int(integer_of(s.len())?))))
}

/// Whether two texts stand to each other in an order.
pub(crate) fn compare(order: Order, operands: Values) -> Option<Doing>
    ensures { result ≡ doing.compare_asks order (doing.two operands) }
{
    let (s, t) = two(operands)?;
    let (Value::Str(s), Value::Str(t)) = (s, t) else {
        return None;
    };
    Some(Doing::giving(Value::Bool(in_order(order, s.as_slice(), t.as_slice()))))
}

/// Whether texts stand in an order: by bytes, and a begin before what it is the begin of.
fn in_order(order: Order, s: &[u8], t: &[u8]) -> bool
    ensures { result ≡ spec.in_order order s.now t.now }
{
    match order {
        Order::Less => s < t,
        Order::LessEqual => s <= t,
        Order::More => s > t,
        Order::MoreEqual => s >= t,
    }
}

/// Some bytes of a text. An error is want of memory.
pub(crate) fn get_slice(line: u32, operands: Values) -> Result<Option<Doing>, AllocError>
    ensures { IfOk result (λ d. d ≡ doing.slice_asks line (doing.three operands)) }
{
    let Some((s, from, count)) = three(operands) else {
        return Ok(None);
    };
    let (Value::Str(s), Value::Int(from), Value::Int(count)) = (s, from, count) else {
        return Ok(None);
    };
    match slice_of(&s, from, count)? {
        Some(slice) => Ok(Some(Doing::giving(Value::Str(slice)))),
        None => Ok(Some(Doing::breaking(Cause::OutOfRange, line))),
    }
}

/// So many bytes of a text from one on, where they are all there.
fn slice_of(s: &Text, from: i32, count: i32) -> Result<Option<Text>, AllocError>
    ensures { IfOk result (λ t. t ≡ spec.slice_of s.now from count) }
{
    let (Ok(from), Ok(count)) = (usize::try_from(from), usize::try_from(count)) else {
        return Ok(None);
    };
    if from > s.len() || count > s.len() - from {
        return Ok(None);
    }
    let bytes = Vec::from_slice(s.allocator(), &s.as_slice()[from..from + count])?;
    Ok(Some(Seq::from_vec(bytes)))
}

/// An Integer or a Boolean as a text. An error is want of memory.
pub(crate) fn as_string(alloc: Global, operands: Values) -> Result<Option<Doing>, AllocError>
    ensures { IfOk result (λ d. d ≡ doing.text_asks (doing.one operands)) }
{
    let text = match one(operands) {
        Some(Value::Int(number)) => decimal(alloc, number)?,
        Some(Value::Bool(truth)) => truth_text(alloc, truth)?,
        _ => return Ok(None),
    };
    Ok(Some(Doing::giving(Value::Str(text))))
}

/// An Integer in decimal.
fn decimal(alloc: Global, number: i32) -> Result<Text, AllocError>
    ensures { IfOk result (λ t. t ≡ signed_decimal number) }
{
    let text = number.to_string(alloc)?;
    Ok(Seq::from_vec(text.into_bytes()))
}

/// A Boolean as a text.
fn truth_text(alloc: Global, truth: bool) -> Result<Text, AllocError>
    ensures { IfOk result (λ t. t ≡ spec.truth_text truth) }
{
    let word = if truth { "true" } else { "false" };
    Ok(Seq::from_vec(Vec::from_slice(alloc, word.as_bytes())?))
}
