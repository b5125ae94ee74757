//! Numbers as immediates of twelve bits spell them.
ghost use Rattle.std.specs.Prelude.{◌≡◌};
ghost use Rattle.rv_code.specs.Words as spec;

use ec_machine_code::step::Source;

/// Twelve bits spell the word, as a signed number.
pub(crate) fn is_small(n: u32) -> bool
    ensures { result ≡ spec.is_small n }
{
    n < 0x800 || 0xFFFF_F800 <= n
}

/// The number that a source is, where it is small.
pub(crate) fn small(source: Source) -> Option<u32>
    ensures { result ≡ spec.small source }
{
    match source {
        Source::Home(_) => None,
        Source::Word(n) => if_small(n),
    }
}

/// The negative of the number that a source is, where it is small.
pub(crate) fn small_negative(source: Source) -> Option<u32>
    ensures { result ≡ spec.small_negative source }
{
    match source {
        Source::Home(_) => None,
        Source::Word(n) => if_small(negative(n)),
    }
}

/// The number, where it is small.
fn if_small(n: u32) -> Option<u32>
    ensures { result ≡ spec.if_small n }
{
    if is_small(n) { Some(n) } else { None }
}

fn negative(n: u32) -> u32
    ensures { result ≡ spec.negative n }
{
    0_u32.wrapping_sub(n)
}

pub(crate) fn is_zero(source: Source) -> bool
    ensures { result ≡ spec.is_zero source }
{
    match source {
        Source::Home(_) => false,
        Source::Word(n) => n == 0,
    }
}
