//! Names of types and values that name none, and names that are declared twice.
ghost use Rattle.std.specs.Prelude.{◌≡◌, ◌++◌, [], ◌∷◌, OnOk, map};
ghost use Rattle.ec_rules.specs.Doubled as doubled;
ghost use Rattle.ec_rules.specs.EndNames as ends;
ghost use Rattle.ec_rules.specs.Judging as judging;
ghost use Rattle.ec_rules.specs.Lists.{each, each_of};
ghost use Rattle.ec_rules.specs.Names as spec;
ghost use Rattle.ec_rules.specs.Rules.{noted};
ghost use Rattle.ec_rules.specs.Types as types;

use crate::Rule;
use crate::faults::Faults;
use crate::measures::few_types;
use ec_ast::{Name, Parameter, Signature, Span, TypeName};
use ec_types::conform::TypeTable;
use ec_types::names::{Names, is_same};
use ec_types::scopes::{Found, Scope};
use std::alloc::{AllocError, Global};

/// The first word of a type.
pub fn type_place(of: &TypeName) -> Span
    ensures { result ≡ types.type_place of.now }
{
    match of {
        TypeName::Integer(at)
        | TypeName::Boolean(at)
        | TypeName::String(at)
        | TypeName::Any(at)
        | TypeName::Node(at)
        | TypeName::Vector(_, at) => *at,
        TypeName::Named(name) => name.at,
    }
}

/// The names of types in a written type are those of types. The error is want of memory.
pub fn known_type(faults: &mut Faults, table: &TypeTable, of: &TypeName) -> Result<(), AllocError>
    ensures { OnOk result (faults.new ≡ noted faults.old (spec.unknown_types table.now of.now)) }
{
    match of {
        TypeName::Named(name) => {
            let first = table.first_named(name.text.as_slice())?;
            faults.note_unless(first.is_some(), Rule::UnknownName, name.at);
            Ok(())
        }
        TypeName::Vector(element, _) => known_type(faults, table, element.get()),
        TypeName::Integer(_)
        | TypeName::Boolean(_)
        | TypeName::String(_)
        | TypeName::Any(_)
        | TypeName::Node(_) => Ok(()),
    }
}

/// The same of a type that may be left out. The error is want of memory.
pub fn known_type_if(
    faults: &mut Faults,
    table: &TypeTable,
    of: &Option<TypeName>,
) -> Result<(), AllocError>
    ensures { OnOk result (faults.new ≡ noted faults.old (each_of (spec.unknown_types table.now) of.now)) }
{
    match of {
        None => Ok(()),
        Some(of) => known_type(faults, table, of),
    }
}

/// The same of the types of parameters. The error is want of memory.
pub fn known_parameters(
    faults: &mut Faults,
    table: &TypeTable,
    parameters: &[Parameter],
) -> Result<(), AllocError>
    ensures { OnOk result (faults.new ≡ noted faults.old (spec.unknown_in_parameters table.now parameters.now)) }
{
    for p in parameters {
        known_type(faults, table, &p.of)?;
    }
    Ok(())
}

#[tactic(auto, using(crate::proofs::Noted::noted_joined, crate::proofs::Noted::noted_none))]
/// The same of the types of an operation. The error is want of memory.
pub fn known_operation(
    faults: &mut Faults,
    table: &TypeTable,
    parameters: &[Parameter],
    returned: &Option<Parameter>,
) -> Result<(), AllocError>
    ensures { OnOk result (faults.new ≡ noted faults.old (spec.unknown_in_operation table.now parameters.now returned.now)) }
{
    known_parameters(faults, table, parameters)?;
    match returned {
        None => Ok(()),
        Some(p) => known_type(faults, table, &p.of),
    }
}

fn known_types(faults: &mut Faults, table: &TypeTable, types: &[TypeName]) -> Result<(), AllocError>
    ensures { OnOk result (faults.new ≡ noted faults.old (each (spec.unknown_types table.now) types.now)) }
{
    for of in types {
        known_type(faults, table, of)?;
    }
    Ok(())
}

#[tactic(auto, using(crate::proofs::Noted::noted_joined))]
/// The same of an operation of a typeobject. The error is want of memory.
pub fn known_signature(
    faults: &mut Faults,
    table: &TypeTable,
    s: &Signature,
) -> Result<(), AllocError>
    ensures { OnOk result (faults.new ≡ noted faults.old (spec.unknown_in_signature table.now s.now)) }
{
    known_types(faults, table, s.parameters.as_slice())?;
    known_type_if(faults, table, &s.result)
}

/// Whether a name is that of a value.
pub fn is_found(found: Found) -> bool
    ensures { result ≡ spec.is_found found }
{
    match found {
        Found::Held(_) | Found::Constant(_) => true,
        Found::Nothing => false,
    }
}

// ---- names that are declared twice

/// A name stands where others do that are taken; it is then taken too. The error is want of memory.
pub fn take(faults: &mut Faults, taken: &mut Names, name: &Name) -> Result<(), AllocError>
    ensures noted { OnOk result (faults.new ≡ noted faults.old (doubled.doubled_behind taken.old (name.now ∷ []))) }
    ensures taken { OnOk result (taken.new ≡ taken.old ++ name.now.text ∷ []) }
{
    let is_taken = taken.has(name.text.as_slice())?;
    faults.note_if(is_taken, Rule::DoubledName, name.at);
    taken.push(name.text.as_slice())
}

/// No name stands twice among these. The error is want of memory.
pub fn distinct(alloc: Global, faults: &mut Faults, names: &[&Name]) -> Result<(), AllocError>
    ensures { OnOk result (faults.new ≡ noted faults.old (doubled.doubled (map (λ name. name.now) names.now))) }
{
    let mut taken = Names::new(alloc);
    for name in names {
        take(faults, &mut taken, name)?;
    }
    Ok(())
}

fn is_first(first: Option<usize>, own: usize) -> bool
    ensures { result ≡ doubled.is_first first own }
{
    match first {
        None => true,
        Some(first) => first == own,
    }
}

/// The name of a type is that of no earlier one. The error is want of memory.
fn first_type(faults: &mut Faults, table: &TypeTable, name: &Name) -> Result<(), AllocError>
    ensures { OnOk result (faults.new ≡ noted faults.old (doubled.doubled_type table.now name.now)) }
{
    let first = table.first_named(name.text.as_slice())?;
    faults.note_unless(
        is_first(first, table.number_at(name.at)),
        Rule::DoubledName,
        name.at,
    );
    Ok(())
}

/// A typeobject, a class or an object constructor has the name of no earlier one, and isn't one too many. The error is want of
/// memory.
#[tactic(auto, using(crate::proofs::Noted::noted_joined))]
pub fn new_type(faults: &mut Faults, table: &TypeTable, name: &Name) -> Result<(), AllocError>
    ensures { OnOk result (faults.new ≡ noted faults.old (judging.type_faults table.now name.now)) }
{
    first_type(faults, table, name)?;
    few_types(faults, table, name.at);
    Ok(())
}

/// A local has the name of no other one in scope, and of no parameter or result. The error is want of memory.
pub fn new_local(faults: &mut Faults, scope: &Scope, name: &Name) -> Result<(), AllocError>
    ensures { OnOk result (faults.new ≡ noted faults.old (doubled.doubled_local scope.now name.now)) }
{
    let is_local = scope.is_local(name.text.as_slice())?;
    faults.note_if(is_local, Rule::DoubledName, name.at);
    Ok(())
}

/// A name again is that name.
pub fn same_name(faults: &mut Faults, name: &Name, again: &Name)
    ensures { faults.new ≡ noted faults.old (ends.differs name.now again.now) }
{
    faults.note_unless(
        is_same(name.text.as_slice(), again.text.as_slice()),
        Rule::EndName,
        again.at,
    );
}
