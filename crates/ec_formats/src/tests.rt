//! Lists of numbers and numbers that may be missing, as bytes, and laws at a concrete type.
ghost use Rattle.std.proofs.Common.{rules};
ghost use Rattle.ec_formats.specs.Fields.{number};

use crate::error::FieldError;
use crate::field::*;
use crate::laws::*;
use crate::reading::*;
use crate::writing::*;
use ec_base::list::Seq;
use std::alloc::{AllocError, Global};
use std::test::Fail;

/// A form in which a number is four bytes.
struct Plain;

impl Field<Plain> for u32 {
    ghost format = { λ _. number };

    const LEAST: usize = 4;

    ghost LEAST = { 4 };

    ghost takes_some = { Prim.search rules };

    fn read<'a>(
        _alloc: Global,
        _before: &[u32],
        bytes: &'a [u8],
    ) -> Result<(u32, &'a [u8]), FieldError> {
        read_number(bytes)
    }

    fn write(&self, out: &mut Vec<u8>) -> Result<(), AllocError> {
        put_number(out, *self)
    }
}

/// How many bytes are left where a list of up to two numbers breaks; `None` where there is one.
fn list_breaks(alloc: Global, bytes: &[u8]) -> Option<FieldError> {
    match read_list::<Plain, u32>(alloc, 2, bytes) {
        Ok(_) => None,
        Err(error) => Some(error),
    }
}

#[test]
fn lists_of_up_to_two_numbers(rt: HostRuntime) -> Result<(), Fail> {
    let table: [(&[u8], Option<FieldError>); 6] = [
        (&[0, 0, 0, 0], None),
        (&[0, 0, 0, 2, 0, 0, 0, 9, 0, 0, 1, 2], None),
        (
            &[0, 0, 0, 3, 0, 0, 0, 9, 0, 0, 1, 2],
            Some(FieldError::Fault(12)),
        ),
        (
            &[0, 0, 0, 2, 0, 0, 0, 9, 0, 0, 1],
            Some(FieldError::Fault(3)),
        ),
        (&[0, 0, 0, 2], Some(FieldError::Fault(0))),
        (&[0, 0, 0], Some(FieldError::Fault(3))),
    ];
    for (bytes, breaks) in table {
        assert_eq!(rt; list_breaks(rt.alloc(), bytes), breaks);
    }
    Ok(())
}

#[test]
fn numbers_are_written_and_read(rt: HostRuntime) -> Result<(), Fail> {
    let mut out = Vec::new(rt.alloc());
    let mut numbers: Seq<u32> = Seq::new(rt.alloc());
    numbers.push(9)?;
    numbers.push(258)?;
    put_list::<Plain, u32>(&mut out, &numbers)?;
    put_optional::<Plain, u32>(&mut out, &Some(7))?;
    put_optional::<Plain, u32>(&mut out, &None)?;
    assert!(rt;
        out.as_slice() == [0, 0, 0, 2, 0, 0, 0, 9, 0, 0, 1, 2, 1, 0, 0, 0, 7, 0].as_slice()
    );
    assert!(rt; read_optional::<Plain, u32>(rt.alloc(), &out[12..17]) == Ok((Some(7), &[])));
    assert!(rt; read_optional::<Plain, u32>(rt.alloc(), &[0]) == Ok((None, &[])));
    assert!(rt; with_nothing_behind(7, &[0, 0]) == Err(FieldError::Fault(2)));
    Ok(())
}

#[test]
fn laws_hold_at_numbers(_rt: HostRuntime) {
    such_that_is_lawful::<u32>();
    pair_is_lawful::<u32, bool>();
    through_is_lawful::<u32, bool>();
    optional_is_lawful::<u32>();
    list_is_lawful::<u32>();
    items_keep_their_rules::<u32>();
    lawful_wholes::<u32>();
}
