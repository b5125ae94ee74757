//! What a step reads and writes, where the code may go on, and the operands of a stop.
ghost use Rattle.std.specs.Prelude.{◌≡◌, ◌<◌, ◌+◌, suc, length};
ghost use Rattle.ec_code.specs.Live as spec;
ghost use Rattle.ec_code.specs.Marks as table;
ghost use Rattle.ec_code.specs.Steps as steps;

use crate::code::{Op, Operand, Test, Variable};
use ec_base::list::Seq;
use ec_world::stop::Stop;
use ec_world::value::{Oid, Value, Values};

/// Whether a place isn't marked, and the variable is live there by its step and by what is marked where the code may go on.
pub(crate) fn is_missing(op: &Op, x: Variable, q: usize, marks: &[bool]) -> bool
    requires { q < length marks.now }
    ensures { result ≡ table.is_missing marks.now x q op.now }
{
    !marks[q] && is_live(op, x, q, marks)
}

fn is_live(op: &Op, x: Variable, q: usize, marks: &[bool]) -> bool
    requires { q < length marks.now }
    ensures { result ≡ table.lives marks.now x q op.now }
{
    reads(op, x) || (!writes(op, x) && goes_on(op, q, marks))
}

/// Whether a step reads a variable.
fn reads(op: &Op, x: Variable) -> bool
    ensures { result ≡ table.is_among x (spec.reads op.now) }
{
    match op {
        Op::Copy { from, .. } | Op::SetField { from, .. } => is_in(x, *from),
        Op::Compute { left, right, .. } => is_in(x, *left) || is_in(x, *right),
        Op::Decide { test, .. } | Op::Branch { test, .. } => is_tested(x, *test),
        Op::Rest(row) => is_among(x, &row.operands),
        Op::Literal { .. }
        | Op::Itself { .. }
        | Op::Field { .. }
        | Op::Constant { .. }
        | Op::Jump { .. }
        | Op::Again { .. } => false,
    }
}

fn is_tested(x: Variable, test: Test) -> bool
    ensures { result ≡ table.is_among x (spec.read_by test) }
{
    match test {
        Test::Holds(operand) => is_in(x, operand),
        Test::Same(left, right)
        | Test::Less(left, right)
        | Test::LessEqual(left, right)
        | Test::Divides(left, right) => is_in(x, left) || is_in(x, right),
    }
}

fn is_in(x: Variable, operand: Operand) -> bool
    ensures { result ≡ table.is_among x (spec.read_in operand) }
{
    match operand {
        Operand::Of(y) => is_same(x, y),
        Operand::Number(_) | Operand::Truth(_) | Operand::Nil => false,
    }
}

fn is_among(x: Variable, variables: &Seq<Variable>) -> bool
    ensures { result ≡ table.is_among x variables.now }
{
    for y in variables.as_slice() {
        if is_same(x, *y) {
            return true;
        }
    }
    false
}

/// Whether two variables are one.
pub fn is_same(x: Variable, y: Variable) -> bool
    ensures { result ≡ table.is_same x y }
{
    match (x, y) {
        (Variable::Named(m), Variable::Named(n)) => m == n,
        (Variable::Temporary(d), Variable::Temporary(e)) => d == e,
        (Variable::Named(_), Variable::Temporary(_))
        | (Variable::Temporary(_), Variable::Named(_)) => false,
    }
}

/// The variable that a step writes; of a stop the one that takes what it gives.
pub fn written(op: &Op) -> Option<Variable>
    ensures { result ≡ spec.writes op.now }
{
    match op {
        Op::Copy { to, .. }
        | Op::Literal { to, .. }
        | Op::Itself { to }
        | Op::Field { to, .. }
        | Op::Constant { to, .. }
        | Op::Compute { to, .. }
        | Op::Decide { to, .. } => Some(*to),
        Op::Rest(row) => row.into,
        Op::SetField { .. } | Op::Branch { .. } | Op::Jump { .. } | Op::Again { .. } => None,
    }
}

/// Whether a step writes a variable.
fn writes(op: &Op, x: Variable) -> bool
    ensures { result ≡ table.is_written (spec.writes op.now) x }
{
    match written(op) {
        Some(y) => is_same(x, y),
        None => false,
    }
}

/// Whether a place is marked at which the code may go on behind a step.
fn goes_on(op: &Op, q: usize, marks: &[bool]) -> bool
    requires { q < length marks.now }
    ensures { result ≡ table.any_marked marks.now (spec.goes_on op.now q) }
{
    match op {
        Op::Branch { over, .. } => is_behind(marks, q, 0) || is_behind(marks, q, *over as usize),
        Op::Jump { over } => is_behind(marks, q, *over as usize),
        Op::Again { back } => marks[q.saturating_sub(*back as usize)],
        Op::Rest(row) => stays(row.stop) && is_behind(marks, q, 0),
        Op::Copy { .. }
        | Op::Literal { .. }
        | Op::Itself { .. }
        | Op::Field { .. }
        | Op::SetField { .. }
        | Op::Constant { .. }
        | Op::Compute { .. }
        | Op::Decide { .. } => is_behind(marks, q, 0),
    }
}

/// Whether the activation is still there behind a stop.
fn stays(stop: Stop) -> bool
    ensures { result ≡ spec.stays stop }
{
    match stop {
        Stop::Return { .. } | Stop::End | Stop::Fail { .. } => false,
        _ => true,
    }
}

/// Whether the place is marked that is behind a place and so many more.
fn is_behind(marks: &[bool], q: usize, over: usize) -> bool
    requires { q < length marks.now }
    ensures { result ≡ table.is_marked marks.now (suc (q + over)) }
{
    over < marks.len() - q - 1 && marks[q + 1 + over]
}

/// Whether a place is marked. None behind the code is.
pub(crate) fn is_marked(marks: &[bool], q: usize) -> bool
    ensures { result ≡ table.is_marked marks.now q }
{
    q < marks.len() && marks[q]
}

/// What the variables of a stop hold, as its operands: where its action is on the own object, this is the first one.
#[tactic(auto, using(crate::proofs::Itself::set_first, crate::proofs::Itself::no_first))]
pub fn with_itself(on_itself: bool, own: Oid, held: Values) -> Values
    ensures { result ≡ steps.with_itself on_itself own held }
{
    let mut operands = held;
    if on_itself && operands.len() > 0 {
        operands.set(0, Value::Ref(own));
    }
    operands
}
