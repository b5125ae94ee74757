//! The types of what stops give.
ghost use Rattle.std.specs.Prelude.{◌≡◌};
ghost use Rattle.ec_emission.specs.Expressions as spec;
ghost use Rattle.ec_meaning.specs.Steps as meaning;

use ec_core::Builtin;
use ec_types::conform::static_type::{Plain, StaticType};
use ec_world::stop::Stop;

pub(crate) const INTEGER: StaticType = StaticType::Plain(Plain::Integer);

pub(crate) const BOOLEAN: StaticType = StaticType::Plain(Plain::Boolean);

pub(crate) const STRING: StaticType = StaticType::Plain(Plain::String);

pub(crate) const NODE: StaticType = StaticType::Plain(Plain::Node);

/// What an operation gives that needs no declaration.
pub(crate) fn builtin_type(builtin: Builtin) -> StaticType
    ensures { result ≡ spec.builtin_type builtin }
{
    match builtin {
        Builtin::AsString | Builtin::GetSlice => STRING,
        Builtin::Length | Builtin::Size => INTEGER,
    }
}

/// Its stop.
pub(crate) fn stop_of(builtin: Builtin, line: u32) -> Stop
    ensures { result ≡ meaning.stop_of builtin line }
{
    match builtin {
        Builtin::AsString => Stop::AsString,
        Builtin::Length => Stop::Length,
        Builtin::GetSlice => Stop::GetSlice { line },
        Builtin::Size => Stop::Size { line },
    }
}
