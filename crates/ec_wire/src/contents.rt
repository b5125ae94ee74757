//! Reads and writes all that a parcel holds.
ghost use Rattle.std.specs.Prelude.{◌≡◌, ◌++◌, OnOk};
ghost use Rattle.ec_formats.specs.Answers.{Gives};
ghost use Rattle.ec_formats.specs.Format.{Format, whole};
ghost use Rattle.ec_wire.specs.WireForm.{parcel, KeepsRules};

use crate::fields::Emv1;
use crate::parcel::Contents;
use ec_formats::error::FieldError;
use ec_formats::field::*;
use ec_formats::reading::*;
use std::alloc::{AllocError, Global};

/// The letters with which every parcel begins.
const LETTERS: [u8; 3] = [0x45, 0x4D, 0x56];

/// The contents whose spelling is all of the bytes.
#[tactic(auto, unfolding(ec_formats::specs::Format::whole))]
pub fn read_contents(alloc: Global, bytes: &[u8]) -> Result<Contents, FieldError>
    ensures { Gives (λ contents. contents) result (whole parcel bytes.now) }
{
    let rest = read_mark(&LETTERS, bytes)?;
    let rest = read_mark(&[1], rest)?;
    let (objects, rest) = read_list::<Emv1, _>(alloc, u32::MAX, rest)?;
    let (monitors, rest) = read_list::<Emv1, _>(alloc, u32::MAX, rest)?;
    let (activations, rest) = read_list::<Emv1, _>(alloc, u32::MAX, rest)?;
    let contents = Contents {
        objects,
        monitors,
        activations,
    };
    with_nothing_behind(contents, rest)
}

/// The bytes of contents that keep the rules.
pub fn put_contents(out: &mut Vec<u8>, contents: &Contents) -> Result<(), AllocError>
    requires { KeepsRules contents.now }
    ensures { OnOk result (out.new.items ≡ out.old.items ++ parcel.spell contents.now) }
{
    out.extend_from_slice(&LETTERS)?;
    out.push(1)?;
    put_list::<Emv1, _>(out, &contents.objects)?;
    put_list::<Emv1, _>(out, &contents.monitors)?;
    put_list::<Emv1, _>(out, &contents.activations)
}
