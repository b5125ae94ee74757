//! A whole program: what its constants mean, and its first static fault.
ghost use Rattle.std.specs.Prelude.{◌≡◌, List, None, IfOk, OnOk, map, slice_get};
ghost use Rattle.ec_judge.specs.Programs as programs;
ghost use Rattle.ec_judge.specs.Walks as spec;
ghost use Rattle.ec_rules.specs.Faults as rules;
ghost use Rattle.ec_rules.specs.Faults.{HasFaults};
ghost use Rattle.ec_rules.specs.Forms.{form_seen};
ghost use Rattle.ec_rules.specs.Lists.{each};
ghost use Rattle.ec_rules.specs.Names.{unknown_in_signature};
ghost use Rattle.ec_rules.specs.Parts as parts;
ghost use Rattle.ec_rules.specs.Parts.{value_in};
ghost use Rattle.ec_rules.specs.Rules.{least_of, noted};
ghost use Rattle.ec_rules.specs.Statements.{done_of};
ghost use Rattle.ec_rules.specs.Tree.{class_part, constant_part, part_of, value_part};

use crate::blocks::constant_conforms;
use crate::expressions::value;
use crate::holders::{Heading, judge_holder, types_written};
use crate::walk::Walk;
use ec_ast::{
    Class, Constant, ConstantValue, Expression, Name, Program, Signature, TypeName, Typeobject,
};
use ec_rules::StaticFault;
use ec_rules::captures::Uses;
use ec_rules::faults::Faults;
use ec_rules::form::{Form, constant_type, form_of};
use ec_rules::judged::{Done, Judged};
use ec_rules::measures::small_operation;
use ec_rules::names::{distinct, known_signature, known_type_if, new_type, same_name};
use ec_types::conform::TypeTable;
use ec_types::scopes::{ClassMeant, Global as Meant, Globals, Meaning, Scope};
use sqlite_items::Items;
use std::alloc::{AllocError, Global};

// ---- what the constants mean

/// The class that a constant stands for. Its parameters' types are found where the constants' names are in scope.
fn class_meant(alloc: Global, scope: &Scope, class: &Class) -> Result<ClassMeant, AllocError>
    ensures { IfOk result (λ meant. Meaning.Class meant ≡ rules.meaning_of scope.now None (parts.class (class_part class.now))) }
{
    Ok(ClassMeant {
        number: scope.table.number_at(class.name.at),
        parameters: types_written(alloc, scope, class.parameters.as_slice())?,
    })
}

fn meaning_of(
    alloc: Global,
    scope: &Scope,
    of: &Option<TypeName>,
    value: &ConstantValue,
) -> Result<Meaning, AllocError>
    ensures { IfOk result (λ meaning. meaning ≡ rules.meaning_of scope.now of.now (value_part value.now)) }
{
    match value {
        ConstantValue::Expression(e) => {
            Ok(Meaning::Value(constant_type(scope, of, form_of(e))?))
        }
        ConstantValue::Class(class) => Ok(Meaning::Class(class_meant(alloc, scope, class)?)),
        ConstantValue::Typeobject(_) => Ok(Meaning::Typeobject),
    }
}

/// What the constants mean, where these names are in scope.
fn globals_in(alloc: Global, scope: &Scope, constants: &[Constant]) -> Result<Globals, AllocError>
    ensures { IfOk result (λ globals. globals ≡ rules.globals_in scope.now (map constant_part constants.now)) }
{
    let mut globals = Globals::new(alloc);
    for c in constants {
        globals.push(Meant {
            name: Items::from_slice(alloc, c.name.text.as_slice())?,
            meaning: meaning_of(alloc, scope, &c.of, &c.value)?,
        })?;
    }
    Ok(globals)
}

/// The scope of the constants' values. Which names are those of classes is known before the types of the constants are
/// found, since a creation has the type of its class.
pub fn scope_of(
    alloc: Global,
    table: TypeTable,
    constants: &[Constant],
) -> Result<Scope, AllocError>
    ensures { IfOk result (λ scope. scope ≡ rules.scope_of_program table (map constant_part constants.now)) }
{
    let mut scope = Scope::new(alloc, table, Globals::new(alloc));
    let names = globals_in(alloc, &scope, constants)?;
    scope.globals = names;
    let globals = globals_in(alloc, &scope, constants)?;
    scope.globals = globals;
    Ok(scope)
}

// ---- the constants' own rules

/// The rules of a constant with an expression, where its value is known.
#[tactic(auto, using(ec_rules::proofs::Noted::noted_joined))]
fn value_rules(
    faults: &mut Faults,
    scope: &Scope,
    name: &Name,
    of: &Option<TypeName>,
    form: Form<'_>,
    value: &Judged,
) -> Result<(), AllocError>
    ensures { OnOk result
        (faults.new ≡ noted faults.old (programs.value_faults scope.now name.now of.now (form_seen form.entry) value.now)) }
{
    known_type_if(faults, &scope.table, of)?;
    constant_conforms(faults, scope, name, of, form, value)
}

fn judge_value<'a>(
    alloc: Global,
    walk: &mut Walk<'a>,
    e: &'a Expression,
    name: &Name,
    of: &Option<TypeName>,
) -> Result<Done, AllocError>
    ensures done { IfOk result (λ d. d ≡ done_of (value_in walk.old.scope (part_of e.now))) }
    ensures walk { OnOk result
        (walk.new ≡ spec.over_operand walk.old (part_of e.now)
        (programs.value_faults walk.old.scope name.now of.now (part_of e.now).form (value_in walk.old.scope (part_of e.now)))) }
{
    let found = value(alloc, walk, e)?;
    value_rules(&mut walk.faults, &walk.scope, name, of, form_of(e), &found)?;
    Ok(Done::of(&found))
}

/// A class, whose name is that of its constant.
fn judge_class<'a>(
    alloc: Global,
    walk: &mut Walk<'a>,
    class: &'a Class,
    name: &Name,
) -> Result<(), AllocError>
    ensures { OnOk result (walk.new ≡ programs.behind_class walk.old name.now (class_part class.now)) }
{
    judge_holder(alloc, walk, &class.body, Heading::of_class(class))?;
    same_name(&mut walk.faults, name, &class.name);
    Ok(())
}

fn known_signatures(
    faults: &mut Faults,
    table: &TypeTable,
    operations: &[Signature],
) -> Result<(), AllocError>
    ensures { OnOk result (faults.new ≡ noted faults.old (each (unknown_in_signature table.now) operations.now)) }
{
    for s in operations {
        known_signature(faults, table, s)?;
    }
    Ok(())
}

fn names_of_signatures(alloc: Global, operations: &[Signature]) -> Result<Vec<&Name>, AllocError>
    ensures { IfOk result (λ names. map (λ x. x.now) names.items ≡ map (λ s. s.name) operations.now) }
{
    let mut names = Vec::new(alloc);
    for s in operations {
        names.push(&s.name)?;
    }
    Ok(names)
}

/// The rules of a typeobject, whose name is that of its constant.
#[tactic(auto, using(ec_rules::proofs::Noted::noted_joined))]
fn typeobject_rules(
    alloc: Global,
    faults: &mut Faults,
    table: &TypeTable,
    t: &Typeobject,
    name: &Name,
) -> Result<(), AllocError>
    ensures { OnOk result (faults.new ≡ noted faults.old (programs.typeobject_faults table.now name.now t.now)) }
{
    known_signatures(faults, table, t.operations.as_slice())?;
    new_type(faults, table, &t.name)?;
    let names = names_of_signatures(alloc, t.operations.as_slice())?;
    distinct(alloc, faults, names.as_slice())?;
    same_name(faults, &t.name, &t.end_name);
    same_name(faults, name, &t.name);
    Ok(())
}

/// A constant: what it counts in the program's own operation 0.
#[tactic(auto, using(crate::proofs::Walks::noted_walk, ec_rules::proofs::Noted::noted_joined))]
fn judge_constant<'a>(
    alloc: Global,
    walk: &mut Walk<'a>,
    c: &'a Constant,
) -> Result<Done, AllocError>
    ensures done { IfOk result (λ d. d ≡ rules.value_done walk.old.scope (value_part c.now.value)) }
    ensures faults { OnOk result
        (walk.new.faults ≡ noted walk.old.faults (rules.faults_in_constant walk.old.scope c.now.name c.now.of (value_part c.now.value))) }
    ensures scope { OnOk result (walk.new.scope ≡ walk.old.scope) }
{
    match &c.value {
        ConstantValue::Expression(e) => judge_value(alloc, walk, e, &c.name, &c.of),
        ConstantValue::Class(class) => {
            judge_class(alloc, walk, class, &c.name)?;
            Ok(Done::nothing())
        }
        ConstantValue::Typeobject(t) => {
            typeobject_rules(alloc, &mut walk.faults, &walk.scope.table, t, &c.name)?;
            Ok(Done::nothing())
        }
    }
}

fn judge_constants<'a>(
    alloc: Global,
    walk: &mut Walk<'a>,
    constants: &'a [Constant],
) -> Result<Done, AllocError>
    ensures done { IfOk result (λ d. d ≡ rules.constants_done walk.old.scope (map constant_part constants.now)) }
    ensures faults { OnOk result
        (walk.new.faults ≡ noted walk.old.faults (each (programs.faults_of walk.old.scope) (map constant_part constants.now))) }
    ensures scope { OnOk result (walk.new.scope ≡ walk.old.scope) }
{
    let mut done = Done::nothing();
    for c in constants {
        done = done.both(judge_constant(alloc, walk, c)?);
    }
    Ok(done)
}

// ---- the program's own rules

fn names_of_constants(alloc: Global, constants: &[Constant]) -> Result<Vec<&Name>, AllocError>
    ensures { IfOk result (λ names. map (λ x. x.now) names.items ≡ map (λ c. c.name) (map constant_part constants.now)) }
{
    let mut names = Vec::new(alloc);
    for c in constants {
        names.push(&c.name)?;
    }
    Ok(names)
}

/// The program's own operation 0 consists of the values of its constants, and stands at the first `const`.
fn small_program(faults: &mut Faults, constants: &[Constant], done: &Done)
    ensures { faults.new ≡ noted faults.old (programs.too_large_program (map constant_part constants.now) done.now) }
{
    if let Some(c) = constants.first() {
        small_operation(faults, c.at, 0, done);
    }
}

/// The rules of the whole program, where its constants are known.
#[tactic(auto, using(ec_rules::proofs::Noted::noted_joined))]
fn program_rules(
    alloc: Global,
    faults: &mut Faults,
    constants: &[Constant],
    done: &Done,
) -> Result<(), AllocError>
    ensures { OnOk result (faults.new ≡ noted faults.old (programs.program_faults (map constant_part constants.now) done.now)) }
{
    let names = names_of_constants(alloc, constants)?;
    distinct(alloc, faults, names.as_slice())?;
    small_program(faults, constants, done);
    Ok(())
}

/// The walk over all constants and the program, in a scope of the program. The error is want of memory.
pub fn judged_program<'a>(
    alloc: Global,
    scope: Scope,
    constants: &'a [Constant],
) -> Result<Walk<'a>, AllocError>
    ensures first { IfOk result
        (λ walk. walk.faults.first ≡ least_of None (rules.faults_of_constants scope (map constant_part constants.now))) }
    ensures scope { IfOk result (λ walk. walk.scope ≡ scope) }
{
    let mut walk = Walk {
        scope,
        faults: Faults::new(),
        uses: Uses::new(alloc),
    };
    let done = judge_constants(alloc, &mut walk, constants)?;
    program_rules(alloc, &mut walk.faults, constants, &done)?;
    Ok(walk)
}

/// The first static fault of a program, by place, then by rule; none where it breaks no rule. The error is want of memory.
pub fn first_fault(alloc: Global, program: &Program) -> Result<Option<StaticFault>, AllocError>
    ensures { IfOk result (λ first. (faults : List StaticFault) × HasFaults program.now faults × (first ≡ slice_get faults 0)) }
{
    let table = TypeTable::build(alloc, program)?;
    let constants = program.constants.as_slice();
    let scope = scope_of(alloc, table, constants)?;
    let walk = judged_program(alloc, scope, constants)?;
    Ok(walk.faults.first)
}
