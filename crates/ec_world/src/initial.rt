//! The values with which the fields and elements of a new object begin.
ghost use Rattle.std.specs.Prelude.{◌≡◌, ◌++◌, drop, replicate, IfOk, OnOk};
ghost use Rattle.ec_world.specs.Values.{default_of, field_defaults};

use crate::class::FieldRec;
use crate::value::{ValueType, Values};
use ec_base::list::Seq;
use std::alloc::{AllocError, Global};

/// The defaults of the fields from one on, behind the values that there are. The error is want of memory.
pub fn push_defaults(
    alloc: Global,
    values: &mut Values,
    fields: &Seq<FieldRec>,
    from: usize,
) -> Result<(), AllocError>
    ensures { OnOk result (values.new ≡ values.old ++ field_defaults (drop from fields.now)) }
{
    for i in from..fields.len() {
        values.push(fields.at(i).of.default_value(alloc))?;
    }
    Ok(())
}

/// So many defaults of a type. The error is want of memory.
pub fn default_elements(alloc: Global, of: ValueType, count: u32) -> Result<Values, AllocError>
    ensures { IfOk result (λ vs. vs ≡ replicate count (default_of of)) }
{
    let mut values = Seq::new(alloc);
    for _ in 0..count {
        values.push(of.default_value(alloc))?;
    }
    Ok(values)
}
