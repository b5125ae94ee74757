//! A program and its constants.

ghost use Rattle.std.specs.Prelude.{◌≡◌, OnOk};
ghost use Rattle.ec_parser.specs.Filled.{IsFilled};
ghost use Rattle.ec_parser.specs.Acts as spec;

use crate::values::Values;
use ec_ast::{Constant, ConstantValue, Program};
use std::alloc::AllocError;

pub(super) fn make_program(values: &mut Values) -> Result<(), AllocError>
    requires constants { IsFilled values.old.constant_lists }
    ensures { OnOk result (values.new ≡ spec.make_program values.old) }
{
    let constants = values.constant_lists.take();
    values.programs.push(Program { constants })
}

pub(super) fn push_constant(values: &mut Values) -> Result<(), AllocError>
    requires value { IsFilled values.old.values }
    requires of { IsFilled values.old.maybe_types }
    requires name { IsFilled values.old.names }
    requires at { IsFilled values.old.places }
    requires list { IsFilled values.old.constant_lists }
    ensures { OnOk result (values.new ≡ spec.push_constant values.old) }
{
    let value = values.values.take();
    let of = values.maybe_types.take();
    let name = values.names.take();
    let at = values.places.take();
    let mut list = values.constant_lists.take();
    list.push(Constant {
        at,
        name,
        of,
        value,
    })?;
    values.constant_lists.push(list)
}

pub(super) fn expression_value(values: &mut Values) -> Result<(), AllocError>
    requires x { IsFilled values.old.expressions }
    ensures { OnOk result (values.new ≡ spec.expression_value values.old) }
{
    let x = values.expressions.take();
    values.values.push(ConstantValue::Expression(x))
}

pub(super) fn class_value(values: &mut Values) -> Result<(), AllocError>
    requires x { IsFilled values.old.classes }
    ensures { OnOk result (values.new ≡ spec.class_value values.old) }
{
    let x = values.classes.take();
    values.values.push(ConstantValue::Class(x))
}

/// The place of `monitor` is dropped.
pub(super) fn monitored_class_value(values: &mut Values) -> Result<(), AllocError>
    requires x { IsFilled values.old.classes }
    requires at { IsFilled values.old.places }
    ensures { OnOk result (values.new ≡ spec.monitored_class_value values.old) }
{
    let x = values.classes.take();
    values.places.take();
    values.values.push(ConstantValue::Class(x))
}
