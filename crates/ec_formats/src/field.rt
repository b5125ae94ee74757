//! Values that have a format, and lists of them.
ghost use Rattle.std.specs.Prelude.{◌≡◌, ℕ, ◌+◌, ◌*◌, ◌/◌, ◌<◌, ◌≤◌, ◌^◌, ◌++◌, true, List, [], length, min, vec_capacity, IfOk, OnOk};
ghost use Rattle.ec_formats.specs.Answers.{Gives};
ghost use Rattle.ec_formats.specs.Format.{Format};
ghost use Rattle.ec_formats.specs.Lists.{list, list_spelling, items_fit, items_read, optional};

use crate::error::FieldError;
use crate::reading::*;
use crate::writing::*;
use ec_base::list::Seq;
use std::alloc::{AllocError, Global};

/// A value with a format in a form of bytes, which the type `Form` names. The value may have a rule on the values before it in its
/// list; how it is spelled doesn't depend on them.
pub trait Field<Form>: Drop {
    /// The format of a value behind these.
    ghost format: { List Self → Format Self };

    /// So many bytes a value has at least: one or more.
    const LEAST: usize;

    ghost LEAST: { ℕ };

    /// The value at the front of the bytes, and the bytes behind it. `Fault` comes exactly where there is none.
    fn read<'a>(
        alloc: Global,
        before: &[Self],
        bytes: &'a [u8],
    ) -> Result<(Self, &'a [u8]), FieldError>
        ensures value { Gives (λ x. (x.0, x.1.now)) result ((format before.now).read bytes.now) }
        ensures least { IfOk result (λ x. length x.1.now + LEAST ≤ length bytes.now) };

    /// Its bytes, behind what is written already. It has to keep the rules that it has behind some values.
    fn write(&self, out: &mut Vec<u8>) -> Result<(), AllocError>
        requires rules { (before : List Self) × ((format before).fits self.now ≡ true) }
        ensures { OnOk result ((before : List Self) → out.new.items ≡ out.old.items ++ (format before).spell self.now) };

    ghost takes_some: { 0 < LEAST };
}

/// A list: a count, which is `limit` at most, and that many items. No count takes more room than the bytes left could fill.
pub fn read_list<'a, Form, T: Field<Form>>(
    alloc: Global,
    limit: u32,
    bytes: &'a [u8],
) -> Result<(Seq<T>, &'a [u8]), FieldError>
    ensures value { Gives (λ x. (x.0, x.1.now)) result ((list limit T.format).read bytes.now) }
    ensures least { IfOk result (λ x. length x.1.now + 4 ≤ length bytes.now) }
{
    let (count, rest) = read_number_up_to(limit, bytes)?;
    read_items::<Form, T>(alloc, count, rest)
}

/// So many items, each behind those before it.
fn read_items<'a, Form, T: Field<Form>>(
    alloc: Global,
    count: u32,
    bytes: &'a [u8],
) -> Result<(Seq<T>, &'a [u8]), FieldError>
    ensures value { Gives (λ x. (x.0, x.1.now)) result (items_read T.format [] count bytes.now) }
    ensures least { IfOk result (λ x. length x.1.now ≤ length bytes.now) }
{
    let mut items = room_for::<Form, T>(alloc, count, bytes)?;
    let mut rest = bytes;
    for _ in 0..count {
        let (item, after) = T::read(alloc, items.as_slice(), rest)?;
        items.push_reserved(item);
        rest = after;
    }
    Ok((Seq::from_vec(items), rest))
}

/// Room for the items of a list, before one is read: for as many as the count says, but for no more than the bytes left could hold.
pub fn room_for<Form, T: Field<Form>>(
    alloc: Global,
    count: u32,
    bytes: &[u8],
) -> Result<Vec<T>, AllocError>
    ensures empty { IfOk result (λ room. room.items ≡ []) }
    ensures room { IfOk result (λ room. vec_capacity room ≡ min count (length bytes.now / T.LEAST)) }
{
    let most = bytes.len() / T::LEAST;
    Vec::with_capacity(alloc, most.min(count as usize))
}

/// A count and the items, each of which keeps the rules that it has behind those before it.
pub fn put_list<Form, T: Field<Form>>(out: &mut Vec<u8>, items: &Seq<T>) -> Result<(), AllocError>
    requires count { length items.now < 2 ^ 32 }
    requires rules { items_fit T.format [] items.now ≡ true }
    ensures { OnOk result (out.new.items ≡ out.old.items ++ list_spelling T.format items.now) }
{
    put_number(out, items.len() as u32)?;
    for i in 0..items.len() {
        items.at(i).write(out)?;
    }
    Ok(())
}

/// A value that may be missing: a flag, 0 or 1, and the value where it is 1. The value stands behind no others.
pub fn read_optional<'a, Form, T: Field<Form>>(
    alloc: Global,
    bytes: &'a [u8],
) -> Result<(Option<T>, &'a [u8]), FieldError>
    ensures value { Gives (λ x. (x.0, x.1.now)) result ((optional (T.format [])).read bytes.now) }
    ensures least { IfOk result (λ x. length x.1.now + 1 ≤ length bytes.now) }
{
    match bytes {
        [] => Err(FieldError::Fault(0)),
        [0, rest @ ..] => Ok((None, rest)),
        [1, rest @ ..] => {
            let (value, rest) = T::read(alloc, &[], rest)?;
            Ok((Some(value), rest))
        }
        [_, ..] => Err(FieldError::Fault(bytes.len())),
    }
}

/// A flag, and the value where there is one, which keeps its rules.
pub fn put_optional<Form, T: Field<Form>>(
    out: &mut Vec<u8>,
    value: &Option<T>,
) -> Result<(), AllocError>
    requires rules { (optional (T.format [])).fits value.now ≡ true }
    ensures { OnOk result (out.new.items ≡ out.old.items ++ (optional (T.format [])).spell value.now) }
{
    match value {
        None => out.push(0)?,
        Some(value) => {
            out.push(1)?;
            value.write(out)?;
        }
    }
    Ok(())
}
