//! The types of temporaries.
ghost use Rattle.std.specs.Prelude.{◌≡◌, ◌≤◌, length, OnOk};
ghost use Rattle.ec_types.specs.declared.conform.static_type.StaticType.{StaticType};
ghost use Rattle.ec_emission.specs.Types as spec;

use ec_base::list::Seq;
use ec_types::conform::static_type::StaticType;
use std::alloc::AllocError;

/// Sets the type of a temporary. The error is want of memory.
pub(crate) fn put_type(
    types: &mut Seq<StaticType>,
    at: usize,
    of: StaticType,
) -> Result<(), AllocError>
    ensures { OnOk result (types.new ≡ spec.put_type types.old at of) }
{
    pad(types, at)?;
    if types.len() == at {
        return types.push(of);
    }
    types.set(at, of);
    Ok(())
}

/// Unknown types up to a place.
fn pad(types: &mut Seq<StaticType>, at: usize) -> Result<(), AllocError>
    ensures long { OnOk result (at ≤ length types.new) }
    ensures same { OnOk result ((t : StaticType) → spec.put_type types.new at t ≡ spec.put_type types.old at t) }
{
    while types.len() < at {
        types.push(StaticType::Unknown)?;
    }
    Ok(())
}
