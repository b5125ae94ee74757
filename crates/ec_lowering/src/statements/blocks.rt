//! The code of blocks.
ghost use Rattle.std.specs.Prelude.{◌≡◌, ◌++◌, OnOk};
ghost use Rattle.ec_core.specs.declared.Statement.{out-Statement};
ghost use Rattle.ec_emission.specs.Statements as spec;
ghost use Rattle.ec_lowering.specs.Blocks as emitting;

use crate::statements::counts::{since, sum};
use crate::statements::statements::{decide, exit, jump_over, leave, plain};
use ec_code::code::Op;
use ec_core::{Arm, Block, Operation, Statement};
use ec_expressions::backward::Backward;
use ec_expressions::emitter::Emitter;
use ec_expressions::rows::bare;
use ec_meaning::types::number_of;
use ec_world::stop::Stop;
use std::alloc::AllocError;

/// The code of a block of an operation before the code so far, with so many steps between its end and the place behind the
/// innermost loop around it. The error is that of an expression, or the number of a condition or a distance that has more
/// than 32 bits.
#[cycle(blocks)]
pub(crate) fn block(
    m: &Emitter<'_>,
    b: &Block,
    o: &Operation,
    left: usize,
    out: &mut Backward,
) -> Result<(), AllocError>
    ensures { OnOk result (out.new ≡ (emitting.block_by m.now (spec.leave_ops o.now) b.now).code left ++ out.old) }
{
    all_statements(m, b.statements.as_slice(), o, left, out)
}

#[cycle(blocks)]
fn all_statements(
    m: &Emitter<'_>,
    xs: &[Statement],
    o: &Operation,
    left: usize,
    out: &mut Backward,
) -> Result<(), AllocError>
    ensures { OnOk result (out.new ≡ emitting.statements_by m.now (spec.leave_ops o.now) xs.now left ++ out.old) }
{
    let end = out.len();
    for n in (0..xs.len()).rev() {
        let further = sum(left, since(end, out))?;
        statement(m, &xs[n], o, further, out)?;
    }
    Ok(())
}

#[cycle(blocks)]
fn statement(
    m: &Emitter<'_>,
    x: &Statement,
    o: &Operation,
    left: usize,
    out: &mut Backward,
) -> Result<(), AllocError>
    ensures { OnOk result (out.new ≡ (emitting.done_by m.now (spec.leave_ops o.now) x.now).code left ++ out.old) }
{
    statement_by_form(m, x, o, left, out)
}

#[cycle(blocks)]
fn statement_by_form(
    m: &Emitter<'_>,
    x: &Statement,
    o: &Operation,
    left: usize,
    out: &mut Backward,
) -> Result<(), AllocError>
    ensures { OnOk result
        (out.new ≡ emitting.statement_in m.now (spec.leave_ops o.now) (out-Statement x.now) left ++ out.old) }
{
    match x {
        Statement::If(arms, other) => {
            let end = out.len();
            other_arm(m, other, o, left, out)?;
            let passed = since(end, out);
            all_arms(m, arms.as_slice(), o, passed, left, out)
        }
        Statement::Loop(body) => turns(m, body, o, out),
        Statement::Exit(x) => exit(m, x, left, out),
        Statement::Return => leave(o, out),
        _ => plain(m, x, out),
    }
}

/// An arm, with so many steps of the other arms behind it.
#[cycle(blocks)]
fn arm(
    m: &Emitter<'_>,
    a: &Arm,
    o: &Operation,
    passed: usize,
    left: usize,
    out: &mut Backward,
) -> Result<(), AllocError>
    ensures { OnOk result (out.new ≡ emitting.arm_over m.now (spec.leave_ops o.now) a.now passed left ++ out.old) }
{
    let end = out.len();
    jump_over(passed, out)?;
    let around = sum(passed, left)?;
    let further = sum(around, since(end, out))?;
    block(m, &a.block, o, further, out)?;
    let steps = since(end, out);
    decide(m, false, &a.condition, steps, out)
}

/// Arms with so many steps behind them.
#[cycle(blocks)]
fn all_arms(
    m: &Emitter<'_>,
    arms: &[Arm],
    o: &Operation,
    passed: usize,
    left: usize,
    out: &mut Backward,
) -> Result<(), AllocError>
    ensures { OnOk result (out.new ≡ emitting.arms_over m.now (spec.leave_ops o.now) arms.now passed left ++ out.old) }
{
    let end = out.len();
    for n in (0..arms.len()).rev() {
        let behind = sum(passed, since(end, out))?;
        arm(m, &arms[n], o, behind, left, out)?;
    }
    Ok(())
}

#[cycle(blocks)]
fn other_arm(
    m: &Emitter<'_>,
    b: &Option<Block>,
    o: &Operation,
    left: usize,
    out: &mut Backward,
) -> Result<(), AllocError>
    ensures { OnOk result (out.new ≡ emitting.other_over m.now (spec.leave_ops o.now) b.now left ++ out.old) }
{
    match b {
        None => Ok(()),
        Some(b) => block(m, b, o, left, out),
    }
}

/// The turns of a loop. How far its end leads back is known once its body is made.
#[cycle(blocks)]
fn turns(m: &Emitter<'_>, body: &Block, o: &Operation, out: &mut Backward) -> Result<(), AllocError>
    ensures { OnOk result (out.new ≡ spec.loop_code (emitting.block_by m.now (spec.leave_ops o.now) body.now) ++ out.old) }
{
    let end = out.len();
    out.before(Op::Again { back: 0 })?;
    block(m, body, o, 1, out)?;
    let steps = since(end, out);
    let back = number_of(steps)?;
    out.replace(end, Op::Again { back });
    bare(out, Stop::LoopTop)
}
