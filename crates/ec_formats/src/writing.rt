//! Writes single fields, each behind what is written already. Where a call fails, some of its bytes may be written.
ghost use Rattle.std.specs.Prelude.{◌≡◌, ◌++◌, ◌<◌, ◌^◌, length, OnOk};
ghost use Rattle.ec_formats.specs.Fields.{word, integer, truth, text_spelling};
ghost use Rattle.ec_formats.specs.Format.{Format};

use ec_base::list::Seq;
use std::alloc::AllocError;

/// A number as four bytes, the highest first.
#[tactic(auto, unfolding(crate::specs::Fields::word))]
pub fn put_number(out: &mut Vec<u8>, n: u32) -> Result<(), AllocError>
    ensures { OnOk result (out.new.items ≡ out.old.items ++ word n) }
{
    out.extend_from_slice(&n.to_be_bytes())
}

/// A number from -2^31 to 2^31 - 1, in two's complement.
pub fn put_integer(out: &mut Vec<u8>, z: i32) -> Result<(), AllocError>
    ensures { OnOk result (out.new.items ≡ out.old.items ++ integer.spell z) }
{
    put_number(out, z.cast_unsigned())
}

/// A truth value as a byte, 0 or 1.
pub fn put_truth(out: &mut Vec<u8>, b: bool) -> Result<(), AllocError>
    ensures { OnOk result (out.new.items ≡ out.old.items ++ truth.spell b) }
{
    out.push(if b { 1 } else { 0 })?;
    Ok(())
}

/// The length of a text, and its bytes.
pub fn put_text(out: &mut Vec<u8>, text: &Seq<u8>) -> Result<(), AllocError>
    requires { length text.now < 2 ^ 32 }
    ensures { OnOk result (out.new.items ≡ out.old.items ++ text_spelling text.now) }
{
    put_number(out, text.len() as u32)?;
    out.extend_from_slice(text.as_slice())
}
