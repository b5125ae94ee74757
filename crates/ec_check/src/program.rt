//! The core of a whole program.
ghost use Rattle.std.specs.Prelude.{◌≡◌, ◌++◌, IfOk, OnOk};
ghost use Rattle.ec_check.specs.Making.{HasMade, env_of};
ghost use Rattle.ec_check.specs.Program as spec;

use crate::expressions::resolve;
use crate::holders::resolve_holder;
use crate::resolver::{Made, Resolver, type_or};
use crate::variables::Variables;
use ec_ast::{self as tree, ConstantValue};
use ec_core::{Constant, Core};
use ec_judge::holders::Heading;
use ec_judge::walk::Walk;
use ec_rules::form::{constant_type, form_of};
use ec_types::conform::TypeTable;
use ec_types::names::Names;
use sqlite_items::Items;
use std::alloc::{AllocError, Global};

/// The core of a constant's value, if it has one; and what is made within it.
fn resolve_constant<'a>(
    alloc: Global,
    r: &mut Resolver<'a>,
    found: &mut Items<Constant>,
    number: usize,
    c: &'a tree::Constant,
) -> Result<(), AllocError>
    ensures core { OnOk result (found.new ≡ found.old ++ spec.constant_core (env_of r.old) number c.now c.now.value) }
    ensures made { OnOk result (HasMade r.old r.new (spec.constant_made r.old.walk.scope c.now.value)) }
{
    match &c.value {
        ConstantValue::Expression(e) => {
            let of = type_or(constant_type(&r.walk.scope, &c.of, form_of(e))?);
            found.push(Constant {
                number,
                of,
                value: resolve(alloc, r, e)?,
            })
        }
        ConstantValue::Class(class) => {
            resolve_holder(alloc, r, &class.body, Heading::of_class(class))?;
            Ok(())
        }
        ConstantValue::Typeobject(_) => Ok(()),
    }
}

/// The constants with values, each with its number among all. The error is want of memory.
fn resolve_constants<'a>(
    alloc: Global,
    r: &mut Resolver<'a>,
    constants: &'a [tree::Constant],
) -> Result<Items<Constant>, AllocError>
    ensures core { IfOk result (λ found. found ≡ spec.constants_core (env_of r.old) 0 constants.now) }
    ensures made { OnOk result (HasMade r.old r.new (spec.constants_made r.old.walk.scope constants.now)) }
{
    let mut found = Items::new(alloc);
    let mut number = 0;
    for c in constants {
        resolve_constant(alloc, r, &mut found, number, c)?;
        number += 1;
    }
    Ok(found)
}

/// The core of a program's constants, by a walk in their scope, and the table of types of the scope. The error is want of
/// memory.
pub fn core_of<'a>(
    alloc: Global,
    walk: Walk<'a>,
    constants: &'a [tree::Constant],
) -> Result<(Core, TypeTable), AllocError>
    ensures core { IfOk result (λ made. made.0 ≡ spec.core_in walk.entry.scope constants.now) }
    ensures table { IfOk result (λ made. made.1 ≡ walk.entry.scope.table) }
{
    let mut r = Resolver {
        walk,
        captures: Names::new(alloc),
        variables: Variables::new(alloc),
        made: Made {
            classes: Items::new(alloc),
            operations: Items::new(alloc),
        },
    };
    let found = resolve_constants(alloc, &mut r, constants)?;
    let core = Core {
        constants: found,
        classes: r.made.classes,
        operations: r.made.operations,
    };
    Ok((core, r.walk.scope.table))
}
