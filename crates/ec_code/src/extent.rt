//! How many numbers of variables there are in code.
ghost use Rattle.std.specs.Prelude.{◌≡◌};
ghost use Rattle.ec_code.specs.Live as spec;
ghost use Rattle.ec_code.specs.Listed.{with_one, with_all, with_code, IsSmall};

use crate::code::{Op, Operand, Test, Variable};
use ec_base::list::Seq;

/// Numbers of variables from 0, so many of named ones and so many of temporaries: each at most 2^32.
#[derive(Clone, Copy)]
pub(crate) struct Extent {
    pub(crate) named: usize,
    pub(crate) temporaries: usize,
}

/// The numbers of all variables that the code reads are among these.
pub(crate) fn extent_of(code: &Seq<Op>) -> Extent
    ensures all { result ≡ with_code (record { named = 0; temporaries = 0 }) code.now }
    ensures few { IsSmall result }
{
    let mut e = Extent {
        named: 0,
        temporaries: 0,
    };
    for op in code.as_slice() {
        e = with_step(e, op);
    }
    e
}

fn with_step(e: Extent, op: &Op) -> Extent
    requires { IsSmall e }
    ensures all { result ≡ with_all e (spec.reads op.now) }
    ensures few { IsSmall result }
{
    match op {
        Op::Copy { from, .. } | Op::SetField { from, .. } => with_operand(e, *from),
        Op::Compute { left, right, .. } => with_operand(with_operand(e, *left), *right),
        Op::Decide { test, .. } | Op::Branch { test, .. } => with_test(e, *test),
        Op::Rest(row) => with_variables(e, &row.operands),
        Op::Literal { .. }
        | Op::Itself { .. }
        | Op::Field { .. }
        | Op::Constant { .. }
        | Op::Jump { .. }
        | Op::Again { .. } => e,
    }
}

fn with_test(e: Extent, test: Test) -> Extent
    requires { IsSmall e }
    ensures all { result ≡ with_all e (spec.read_by test) }
    ensures few { IsSmall result }
{
    match test {
        Test::Holds(operand) => with_operand(e, operand),
        Test::Same(left, right)
        | Test::Less(left, right)
        | Test::LessEqual(left, right)
        | Test::Divides(left, right) => with_operand(with_operand(e, left), right),
    }
}

fn with_operand(e: Extent, operand: Operand) -> Extent
    requires { IsSmall e }
    ensures all { result ≡ with_all e (spec.read_in operand) }
    ensures few { IsSmall result }
{
    match operand {
        Operand::Of(x) => with_variable(e, x),
        Operand::Number(_) | Operand::Truth(_) | Operand::Nil => e,
    }
}

fn with_variables(e: Extent, variables: &Seq<Variable>) -> Extent
    requires { IsSmall e }
    ensures all { result ≡ with_all e variables.now }
    ensures few { IsSmall result }
{
    let mut all = e;
    for x in variables.as_slice() {
        all = with_variable(all, *x);
    }
    all
}

fn with_variable(e: Extent, x: Variable) -> Extent
    requires { IsSmall e }
    ensures all { result ≡ with_one e x }
    ensures few { IsSmall result }
{
    match x {
        Variable::Named(n) => Extent {
            named: e.named.max(n as usize + 1),
            temporaries: e.temporaries,
        },
        Variable::Temporary(d) => Extent {
            named: e.named,
            temporaries: e.temporaries.max(d as usize + 1),
        },
    }
}
