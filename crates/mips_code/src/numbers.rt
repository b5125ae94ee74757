//! Numbers as immediates of sixteen bits spell them.
ghost use Rattle.std.specs.Prelude.{◌≡◌};
ghost use Rattle.mips_code.specs.Words as spec;

use ec_machine_code::step::Source;

/// Sixteen bits spell the word, as a signed number.
pub(crate) fn is_small(n: u32) -> bool
    ensures { result ≡ spec.is_small n }
{
    n < 0x8000 || 0xFFFF_8000 <= n
}

/// The number that a source is, where it is small.
pub(crate) fn small(source: Source) -> Option<u32>
    ensures { result ≡ spec.small source }
{
    match source {
        Source::Home(_) => None,
        Source::Word(n) => { if is_small(n) { Some(n) } else { None } }
    }
}

/// The negative of the number that a source is, where it is small.
pub(crate) fn small_negative(source: Source) -> Option<u32>
    ensures { result ≡ spec.small_negative source }
{
    match source {
        Source::Home(_) => None,
        Source::Word(n) => {
            if is_small(negative(n)) {
                Some(negative(n))
            } else {
                None
            }
        }
    }
}

fn negative(n: u32) -> u32
    ensures { result ≡ spec.negative n }
{
    0_u32.wrapping_sub(n)
}

/// Whether a source is a number other than -1.
pub(crate) fn is_other_number(source: Source) -> bool
    ensures { result ≡ spec.is_other_number source }
{
    match source {
        Source::Home(_) => false,
        Source::Word(n) => n != 0xFFFF_FFFF,
    }
}
