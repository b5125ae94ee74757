//! Statements.

ghost use Rattle.std.specs.Prelude.{◌≡◌, OnOk};
ghost use Rattle.ec_parser.specs.Filled.{IsFilled, rest};
ghost use Rattle.ec_parser.specs.Acts as spec;

use crate::values::Values;
use ec_ast::{Arm, Block, Statement};
use std::alloc::AllocError;

pub(super) fn push_statement(values: &mut Values) -> Result<(), AllocError>
    requires x { IsFilled values.old.statements }
    requires list { IsFilled values.old.statement_lists }
    ensures { OnOk result (values.new ≡ spec.push_statement values.old) }
{
    let x = values.statements.take();
    let mut list = values.statement_lists.take();
    list.push(x)?;
    values.statement_lists.push(list)
}

pub(super) fn local_variable(values: &mut Values) -> Result<(), AllocError>
    requires value { IsFilled values.old.maybe_expressions }
    requires of { IsFilled values.old.types }
    requires name { IsFilled values.old.names }
    ensures { OnOk result (values.new ≡ spec.local_variable values.old) }
{
    let value = values.maybe_expressions.take();
    let of = values.types.take();
    let name = values.names.take();
    values
        .statements
        .push(Statement::LocalVariable(name, of, value))
}

pub(super) fn local_constant(values: &mut Values) -> Result<(), AllocError>
    requires value { IsFilled values.old.expressions }
    requires of { IsFilled values.old.maybe_types }
    requires name { IsFilled values.old.names }
    ensures { OnOk result (values.new ≡ spec.local_constant values.old) }
{
    let value = values.expressions.take();
    let of = values.maybe_types.take();
    let name = values.names.take();
    values
        .statements
        .push(Statement::LocalConstant(name, of, value))
}

pub(super) fn make_print(values: &mut Values) -> Result<(), AllocError>
    requires x { IsFilled values.old.expressions }
    requires at { IsFilled values.old.places }
    ensures { OnOk result (values.new ≡ spec.make_print values.old) }
{
    let x = values.expressions.take();
    let at = values.places.take();
    values.statements.push(Statement::Print(x, at))
}

pub(super) fn push_arm(values: &mut Values) -> Result<(), AllocError>
    requires statements { IsFilled values.old.statement_lists }
    requires condition { IsFilled values.old.expressions }
    requires list { IsFilled values.old.arm_lists }
    ensures { OnOk result (values.new ≡ spec.push_arm values.old) }
{
    let statements = values.statement_lists.take();
    let condition = values.expressions.take();
    let mut list = values.arm_lists.take();
    list.push(Arm {
        condition,
        block: Block { statements },
    })?;
    values.arm_lists.push(list)
}

pub(super) fn make_if(values: &mut Values) -> Result<(), AllocError>
    requires otherwise { IsFilled values.old.maybe_blocks }
    requires arms { IsFilled values.old.arm_lists }
    requires at { IsFilled values.old.places }
    ensures { OnOk result (values.new ≡ spec.make_if values.old) }
{
    let otherwise = values.maybe_blocks.take();
    let arms = values.arm_lists.take();
    let at = values.places.take();
    values.statements.push(Statement::If(arms, otherwise, at))
}

pub(super) fn make_loop(values: &mut Values) -> Result<(), AllocError>
    requires statements { IsFilled values.old.statement_lists }
    requires at { IsFilled values.old.places }
    ensures { OnOk result (values.new ≡ spec.make_loop values.old) }
{
    let statements = values.statement_lists.take();
    let at = values.places.take();
    values
        .statements
        .push(Statement::Loop(Block { statements }, at))
}

pub(super) fn make_exit(values: &mut Values) -> Result<(), AllocError>
    requires when { IsFilled values.old.maybe_expressions }
    requires at { IsFilled values.old.places }
    ensures { OnOk result (values.new ≡ spec.make_exit values.old) }
{
    let when = values.maybe_expressions.take();
    let at = values.places.take();
    values.statements.push(Statement::Exit(when, at))
}

pub(super) fn make_return(values: &mut Values) -> Result<(), AllocError>
    requires at { IsFilled values.old.places }
    ensures { OnOk result (values.new ≡ spec.make_return values.old) }
{
    let at = values.places.take();
    values.statements.push(Statement::Return(at))
}

pub(super) fn make_assert(values: &mut Values) -> Result<(), AllocError>
    requires x { IsFilled values.old.expressions }
    requires at { IsFilled values.old.places }
    ensures { OnOk result (values.new ≡ spec.make_assert values.old) }
{
    let x = values.expressions.take();
    let at = values.places.take();
    values.statements.push(Statement::Assert(x, at))
}

pub(super) fn make_move(values: &mut Values) -> Result<(), AllocError>
    requires y { IsFilled values.old.expressions }
    requires x { IsFilled (rest values.old.expressions) }
    requires at { IsFilled values.old.places }
    ensures { OnOk result (values.new ≡ spec.make_move values.old) }
{
    let y = values.expressions.take();
    let x = values.expressions.take();
    let at = values.places.take();
    values.statements.push(Statement::Move(x, y, at))
}

pub(super) fn make_fix(values: &mut Values) -> Result<(), AllocError>
    requires y { IsFilled values.old.expressions }
    requires x { IsFilled (rest values.old.expressions) }
    requires at { IsFilled values.old.places }
    ensures { OnOk result (values.new ≡ spec.make_fix values.old) }
{
    let y = values.expressions.take();
    let x = values.expressions.take();
    let at = values.places.take();
    values.statements.push(Statement::Fix(x, y, at))
}

pub(super) fn make_refix(values: &mut Values) -> Result<(), AllocError>
    requires y { IsFilled values.old.expressions }
    requires x { IsFilled (rest values.old.expressions) }
    requires at { IsFilled values.old.places }
    ensures { OnOk result (values.new ≡ spec.make_refix values.old) }
{
    let y = values.expressions.take();
    let x = values.expressions.take();
    let at = values.places.take();
    values.statements.push(Statement::Refix(x, y, at))
}

pub(super) fn make_unfix(values: &mut Values) -> Result<(), AllocError>
    requires x { IsFilled values.old.expressions }
    requires at { IsFilled values.old.places }
    ensures { OnOk result (values.new ≡ spec.make_unfix values.old) }
{
    let x = values.expressions.take();
    let at = values.places.take();
    values.statements.push(Statement::Unfix(x, at))
}

pub(super) fn make_wait(values: &mut Values) -> Result<(), AllocError>
    requires name { IsFilled values.old.names }
    requires at { IsFilled values.old.places }
    ensures { OnOk result (values.new ≡ spec.make_wait values.old) }
{
    let name = values.names.take();
    let at = values.places.take();
    values.statements.push(Statement::Wait(name, at))
}

pub(super) fn make_signal(values: &mut Values) -> Result<(), AllocError>
    requires name { IsFilled values.old.names }
    requires at { IsFilled values.old.places }
    ensures { OnOk result (values.new ≡ spec.make_signal values.old) }
{
    let name = values.names.take();
    let at = values.places.take();
    values.statements.push(Statement::Signal(name, at))
}

pub(super) fn make_assign(values: &mut Values) -> Result<(), AllocError>
    requires value { IsFilled values.old.expressions }
    requires target { IsFilled (rest values.old.expressions) }
    ensures { OnOk result (values.new ≡ spec.make_assign values.old) }
{
    let value = values.expressions.take();
    let target = values.expressions.take();
    values.statements.push(Statement::Assign(target, value))
}

pub(super) fn make_invoke(values: &mut Values) -> Result<(), AllocError>
    requires x { IsFilled values.old.expressions }
    ensures { OnOk result (values.new ≡ spec.make_invoke values.old) }
{
    let x = values.expressions.take();
    values.statements.push(Statement::Invoke(x))
}
