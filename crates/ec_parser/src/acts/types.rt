//! Typeobjects and types.

ghost use Rattle.std.specs.Prelude.{◌≡◌, OnOk};
ghost use Rattle.ec_parser.specs.Filled.{IsFilled, rest};
ghost use Rattle.ec_parser.specs.Acts as spec;

use crate::values::Values;
use ec_ast::{ConstantValue, Signature, TypeName, Typeobject};
use sqlite_items::Boxed;
use std::alloc::{AllocError, Global};

pub(super) fn make_typeobject(values: &mut Values) -> Result<(), AllocError>
    requires end_name { IsFilled values.old.names }
    requires operations { IsFilled values.old.signature_lists }
    requires name { IsFilled (rest values.old.names) }
    ensures { OnOk result (values.new ≡ spec.make_typeobject values.old) }
{
    let end_name = values.names.take();
    let operations = values.signature_lists.take();
    let name = values.names.take();
    values.values.push(ConstantValue::Typeobject(Typeobject {
        name,
        operations,
        end_name,
    }))
}

pub(super) fn push_signature(values: &mut Values) -> Result<(), AllocError>
    requires result { IsFilled values.old.maybe_types }
    requires parameters { IsFilled values.old.type_lists }
    requires name { IsFilled values.old.names }
    requires list { IsFilled values.old.signature_lists }
    ensures { OnOk result (values.new ≡ spec.push_signature values.old) }
{
    let result = values.maybe_types.take();
    let parameters = values.type_lists.take();
    let name = values.names.take();
    let mut list = values.signature_lists.take();
    list.push(Signature {
        name,
        parameters,
        result,
    })?;
    values.signature_lists.push(list)
}

pub(super) fn push_type(values: &mut Values) -> Result<(), AllocError>
    requires x { IsFilled values.old.types }
    requires list { IsFilled values.old.type_lists }
    ensures { OnOk result (values.new ≡ spec.push_type values.old) }
{
    let x = values.types.take();
    let mut list = values.type_lists.take();
    list.push(x)?;
    values.type_lists.push(list)
}

pub(super) fn drop_name(values: &mut Values) -> Result<(), AllocError>
    requires x { IsFilled values.old.types }
    requires name { IsFilled values.old.names }
    ensures { OnOk result (values.new ≡ spec.drop_name values.old) }
{
    let x = values.types.take();
    let _name = values.names.take();
    values.types.push(x)
}

pub(super) fn named_type(values: &mut Values) -> Result<(), AllocError>
    requires name { IsFilled values.old.names }
    ensures { OnOk result (values.new ≡ spec.named_type values.old) }
{
    let name = values.names.take();
    values.types.push(TypeName::Named(name))
}

pub(super) fn type_integer(values: &mut Values) -> Result<(), AllocError>
    requires at { IsFilled values.old.places }
    ensures { OnOk result (values.new ≡ spec.type_integer values.old) }
{
    let at = values.places.take();
    values.types.push(TypeName::Integer(at))
}

pub(super) fn type_boolean(values: &mut Values) -> Result<(), AllocError>
    requires at { IsFilled values.old.places }
    ensures { OnOk result (values.new ≡ spec.type_boolean values.old) }
{
    let at = values.places.take();
    values.types.push(TypeName::Boolean(at))
}

pub(super) fn type_string(values: &mut Values) -> Result<(), AllocError>
    requires at { IsFilled values.old.places }
    ensures { OnOk result (values.new ≡ spec.type_string values.old) }
{
    let at = values.places.take();
    values.types.push(TypeName::String(at))
}

pub(super) fn type_any(values: &mut Values) -> Result<(), AllocError>
    requires at { IsFilled values.old.places }
    ensures { OnOk result (values.new ≡ spec.type_any values.old) }
{
    let at = values.places.take();
    values.types.push(TypeName::Any(at))
}

pub(super) fn type_node(values: &mut Values) -> Result<(), AllocError>
    requires at { IsFilled values.old.places }
    ensures { OnOk result (values.new ≡ spec.type_node values.old) }
{
    let at = values.places.take();
    values.types.push(TypeName::Node(at))
}

pub(super) fn type_vector(alloc: Global, values: &mut Values) -> Result<(), AllocError>
    requires x { IsFilled values.old.types }
    requires at { IsFilled values.old.places }
    ensures { OnOk result (values.new ≡ spec.type_vector values.old) }
{
    let x = values.types.take();
    let at = values.places.take();
    values
        .types
        .push(TypeName::Vector(Boxed::new(alloc, x)?, at))
}
