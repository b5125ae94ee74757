//! Arithmetic on two numbers of 32 bits.
ghost use Rattle.std.specs.Prelude.{◌≡◌, option_map};
ghost use Rattle.ec_code.specs.Steps as spec;
ghost use Rattle.ec_world.specs.declared.value.Value.TheVariants.{Int};

use ec_code::code::Arithmetic;

/// The result, where there is one: no quotient and no remainder has a divisor of 0.
pub(crate) fn computed(how: Arithmetic, a: i32, b: i32) -> Option<i32>
    ensures { option_map Int result ≡ spec.computed how a b }
{
    match how {
        Arithmetic::Sum => Some(a.wrapping_add(b)),
        Arithmetic::Difference => Some(a.wrapping_sub(b)),
        Arithmetic::Product => Some(a.wrapping_mul(b)),
        Arithmetic::Quotient => {
            if b == 0 {
                return None;
            }
            Some(a.wrapping_div(b))
        }
        Arithmetic::Remainder => {
            if b == 0 {
                return None;
            }
            Some(a.wrapping_rem(b))
        }
    }
}
