//! What may be assigned to.
ghost use Rattle.std.specs.Prelude.{◌≡◌};
ghost use Rattle.ec_rules.specs.Assignments as spec;

use ec_types::scopes::Found;

/// Whether a name is that of a variable of the own operation or object. A name of no value is a fault of another rule.
pub fn is_assignable(found: Found) -> bool
    ensures { result ≡ spec.is_assignable found }
{
    match found {
        Found::Held(h) => h.out == 0 && h.is_variable,
        Found::Constant(_) => false,
        Found::Nothing => true,
    }
}
