//! The code of statements with no block within, and of what loops, arms and operations end with.
ghost use Rattle.std.specs.Prelude.{◌≡◌, ◌++◌, [], ◌∷◌, OnOk};
ghost use Rattle.ec_core.specs.declared.Statement.{out-Statement};
ghost use Rattle.ec_emission.specs.Statements as spec;
ghost use Rattle.ec_lowering.specs.Blocks as emitting;
ghost use Rattle.ec_emission.specs.Rows as stops;
ghost use Rattle.ec_world.specs.Values.{default_of};

use crate::statements::counts::sum;
use ec_code::code::{Op, Operand, Variable};
use ec_core::{At, Expression, Kind, Operation, Place, Statement};
use ec_expressions::backward::Backward;
use ec_expressions::emitter::Emitter;
use ec_expressions::rows::{bare, fail, give_back, rest};
use ec_meaning::types::{kind_of, number_of};
use ec_world::process::Cause;
use ec_world::stop::Stop;
use ec_world::value::ValueType;
use std::alloc::AllocError;

/// The end of an operation. The error is want of memory, or the number of a variable that has more than 32 bits.
pub(crate) fn leave(o: &Operation, out: &mut Backward) -> Result<(), AllocError>
    ensures { OnOk result (out.new ≡ spec.leave_ops o.now ++ out.old) }
{
    match o.kind {
        Kind::Named => {
            if o.has_result {
                give_back(out, number_of(o.parameters)?)
            } else {
                bare(out, Stop::Return { gives_self: false })
            }
        }
        Kind::Initial => bare(out, Stop::Return { gives_self: true }),
        Kind::Process => bare(out, Stop::End),
    }
}

/// So many steps are passed over, if there are any. The error is want of memory, or more steps than 32 bits can count.
#[tactic(auto, using(crate::proofs::Jumping::no_jump, crate::proofs::Jumping::a_jump))]
pub(crate) fn jump_over(steps: usize, out: &mut Backward) -> Result<(), AllocError>
    ensures { OnOk result (out.new ≡ spec.jump_over steps ++ out.old) }
{
    if steps > 0 {
        let over = number_of(steps)?;
        return out.before(Op::Jump { over });
    }
    Ok(())
}

// ---- variables and places

/// A variable gets the default of what it holds. The error is want of memory, or a number of more than 32 bits.
pub(crate) fn reset(
    m: &Emitter<'_>,
    n: usize,
    of: ValueType,
    out: &mut Backward,
) -> Result<(), AllocError>
    ensures { OnOk result (out.new ≡ emitting.given_by m.now n (default_of of) ++ out.old) }
{
    let to = Variable::Named(number_of(n)?);
    match of {
        ValueType::Integer => out.before(Op::Copy {
            to,
            from: Operand::Number(0),
        }),
        ValueType::Boolean => out.before(Op::Copy {
            to,
            from: Operand::Truth(false),
        }),
        ValueType::Bytes => m.literal(&[], to, out),
        ValueType::Reference => out.before(Op::Copy {
            to,
            from: Operand::Nil,
        }),
    }
}

/// What is read goes into a place. The error is want of memory, or a number of more than 32 bits.
fn store(m: &Emitter<'_>, place: Place, from: Operand, out: &mut Backward) -> Result<(), AllocError>
    ensures { OnOk result (out.new ≡ emitting.store_by m.now place from ++ out.old) }
{
    match place {
        Place::Variable(n) => {
            let to = Variable::Named(number_of(n)?);
            out.before(Op::Copy { to, from })
        }
        Place::Field(n) => {
            let field = number_of(sum(m.captured, n)?)?;
            out.before(Op::SetField { field, from })
        }
        Place::Captured(_) | Place::Constant(_) => Ok(()),
    }
}

/// A place gets a value. The error is that of an expression.
fn assign(
    m: &Emitter<'_>,
    place: Place,
    x: &Expression,
    out: &mut Backward,
) -> Result<(), AllocError>
    ensures { OnOk result (out.new ≡ emitting.assigned m.now place x.now ++ out.old) }
{
    store(m, place, m.operand(x, 0)?, out)?;
    m.value(x, true, 0, out)
}

/// A variable begins, with a value or with its default. The error is that of an expression.
fn declare(
    m: &Emitter<'_>,
    n: usize,
    x: &Option<Expression>,
    out: &mut Backward,
) -> Result<(), AllocError>
    ensures { OnOk result (out.new ≡ emitting.declared m.now n x.now ++ out.old) }
{
    match x {
        Some(x) => assign(m, Place::Variable(n), x, out),
        None => match sqlite_items::at(m.types, n) {
            Some(of) => reset(m, n, kind_of(*of), out),
            None => reset(m, n, ValueType::Reference, out),
        },
    }
}

// ---- stops

/// A stop with one value. The error is that of an expression.
fn stop_one(
    m: &Emitter<'_>,
    stop: Stop,
    x: &Expression,
    out: &mut Backward,
) -> Result<(), AllocError>
    ensures { OnOk result (out.new ≡ emitting.stop_code m.now (x.now ∷ []) stop ++ out.old) }
{
    rest(out, stop, 0, 1, None)?;
    m.expression(x, 0, out)
}

/// A stop with two. The error is that of an expression.
fn stop_two(
    m: &Emitter<'_>,
    stop: Stop,
    x: &Expression,
    y: &Expression,
    out: &mut Backward,
) -> Result<(), AllocError>
    ensures { OnOk result (out.new ≡ emitting.stop_code m.now (x.now ∷ y.now ∷ []) stop ++ out.old) }
{
    rest(out, stop, 0, 2, None)?;
    m.expression(y, 1, out)?;
    m.expression(x, 0, out)
}

/// An element gets a value. The error is that of an expression.
fn set_element(
    m: &Emitter<'_>,
    vector: &Expression,
    number: &Expression,
    x: &Expression,
    at: At,
    out: &mut Backward,
) -> Result<(), AllocError>
    ensures { OnOk result
        (out.new
        ≡ emitting.stop_code m.now (vector.now ∷ number.now ∷ x.now ∷ []) (Stop.Set (emitting.line_at m.now at))
        ++ out.old) }
{
    let line = m.line(at);
    rest(out, Stop::Set { line }, 0, 3, None)?;
    m.expression(x, 2, out)?;
    m.expression(number, 1, out)?;
    m.expression(vector, 0, out)
}

/// The process waits for a condition. The error is want of memory, or the number of a condition that has more than 32 bits.
fn wait(n: usize, out: &mut Backward) -> Result<(), AllocError>
    ensures { OnOk result (out.new ≡ Op.Rest (stops.bare_row (Stop.Wait n)) ∷ out.old) }
{
    let condition = number_of(n)?;
    bare(out, Stop::Wait { condition })
}

/// The process signals a condition. The error is that of a wait.
fn signal(n: usize, out: &mut Backward) -> Result<(), AllocError>
    ensures { OnOk result (out.new ≡ Op.Rest (stops.bare_row (Stop.Signal n)) ∷ out.old) }
{
    let condition = number_of(n)?;
    bare(out, Stop::Signal { condition })
}

// ---- conditions

/// What a test is wanted to be where a condition is wanted to hold, or not to.
fn wanted_if(holds: bool, wanted: bool) -> bool
    ensures { result ≡ emitting.wanted_if holds wanted }
{
    if holds { wanted } else { !wanted }
}

/// So many steps are passed over where a condition holds, or where it doesn't. The error is that of an expression.
pub(crate) fn decide(
    m: &Emitter<'_>,
    holds: bool,
    x: &Expression,
    steps: usize,
    out: &mut Backward,
) -> Result<(), AllocError>
    ensures { OnOk result (out.new ≡ emitting.decided_by m.now holds x.now steps ++ out.old) }
{
    let over = number_of(steps)?;
    let asked = m.asked(x, 0)?;
    out.before(Op::Branch {
        test: asked.test,
        wanted: wanted_if(holds, asked.wanted),
        over,
    })?;
    m.condition(x, 0, out)
}

/// What is asserted has to hold. The error is that of an expression.
fn require(m: &Emitter<'_>, x: &Expression, at: At, out: &mut Backward) -> Result<(), AllocError>
    ensures { OnOk result (out.new ≡ emitting.asserted m.now x.now at ++ out.old) }
{
    fail(out, Cause::FalseAssertion, m.line(at))?;
    decide(m, true, x, 1, out)
}

/// The innermost loop is left, where a condition holds if there is one. The error is that of an expression.
pub(crate) fn exit(
    m: &Emitter<'_>,
    x: &Option<Expression>,
    left: usize,
    out: &mut Backward,
) -> Result<(), AllocError>
    ensures { OnOk result (out.new ≡ emitting.exited m.now x.now left ++ out.old) }
{
    match x {
        None => {
            let over = number_of(left)?;
            out.before(Op::Jump { over })
        }
        Some(x) => decide(m, true, x, left, out),
    }
}

// ---- all of them

/// A statement with no block within that leaves neither a loop nor the operation. The error is that of an expression, or
/// the number of a condition that has more than 32 bits.
pub(crate) fn plain(m: &Emitter<'_>, x: &Statement, out: &mut Backward) -> Result<(), AllocError>
    ensures { OnOk result (out.new ≡ emitting.plain_in m.now (out-Statement x.now) ++ out.old) }
{
    match x {
        Statement::Declare(n, x) => declare(m, *n, x, out),
        Statement::Assign(place, x) => assign(m, *place, x, out),
        Statement::SetElement(vector, number, x, at) => set_element(m, vector, number, x, *at, out),
        Statement::Drop(x) => m.expression(x, 0, out),
        Statement::Print(x) => stop_one(m, Stop::Print, x, out),
        Statement::Assert(x, at) => require(m, x, *at, out),
        Statement::Move(x, to, at) => {
            let line = m.line(*at);
            stop_two(m, Stop::Move { line }, x, to, out)
        }
        Statement::Fix(x, to, at) => {
            let line = m.line(*at);
            stop_two(m, Stop::Fix { line }, x, to, out)
        }
        Statement::Refix(x, to, at) => {
            let line = m.line(*at);
            stop_two(m, Stop::Refix { line }, x, to, out)
        }
        Statement::Unfix(x, at) => {
            let line = m.line(*at);
            stop_one(m, Stop::Unfix { line }, x, out)
        }
        Statement::Wait(n) => wait(*n, out),
        Statement::Signal(n) => signal(*n, out),
        _ => Ok(()),
    }
}
