//! Comparisons of the two values that are held last.
ghost use Rattle.std.specs.Prelude.{◌≡◌, Bool, true, false, IfOk};
ghost use Rattle.ec_meaning.specs.Running.{after, came, comparison_of, in_number_order};
ghost use Rattle.ec_meaning.specs.Steps as spec;
ghost use Rattle.ec_world.specs.Same.{are_same as same_values};

use crate::state::{Outcome, State};
use crate::todo::Todo;
use ec_ast::Comparison;
use ec_world::same::are_same;
use ec_world::stop::Order;
use ec_world::value::Value;
use std::alloc::AllocError;

/// A comparison of the two values held last: whether they are the same, or how two numbers stand to each other. The error is
/// want of memory.
pub(crate) fn compare(op: Comparison, state: &mut State, todo: &Todo) -> Result<Outcome, AllocError>
    ensures { IfOk result
        (λ o. came o state.new todo.now ≡ after state.old todo.now (spec.last_two state.old (spec.compare op))) }
{
    match op {
        Comparison::Same | Comparison::Equal => same_or_not(true, state, todo),
        Comparison::NotSame | Comparison::NotEqual => same_or_not(false, state, todo),
        Comparison::Less => order(Order::Less, state, todo),
        Comparison::LessEqual => order(Order::LessEqual, state, todo),
        Comparison::More => order(Order::More, state, todo),
        Comparison::MoreEqual => order(Order::MoreEqual, state, todo),
    }
}

/// Whether the two values held last are the same, or whether they aren't. The error is want of memory.
fn same_or_not(wanted: bool, state: &mut State, todo: &Todo) -> Result<Outcome, AllocError>
    ensures { IfOk result
        (λ o. came o state.new todo.now ≡ after state.old todo.now
        (spec.last_two state.old (λ under u v. spec.same_or_not under wanted (same_values u v)))) }
{
    let Some((u, v)) = state.pop_two() else {
        return Ok(Outcome::NoCase);
    };
    match are_same(u, v) {
        Some(same) => state.gives(Value::Bool(same == wanted)),
        None => Ok(Outcome::NoCase),
    }
}

/// Whether two numbers stand to each other in an order.
fn in_order(order: Order, a: i32, b: i32) -> bool
    ensures { result ≡ in_number_order order a b }
{
    match order {
        Order::Less => a < b,
        Order::LessEqual => a <= b,
        Order::More => a > b,
        Order::MoreEqual => a >= b,
    }
}

/// Whether the two numbers held last stand to each other in an order. The error is want of memory.
fn order(order: Order, state: &mut State, todo: &Todo) -> Result<Outcome, AllocError>
    ensures { IfOk result
        (λ o. came o state.new todo.now ≡ after state.old todo.now
        (spec.last_two state.old (spec.compare (comparison_of order)))) }
{
    match state.pop_numbers() {
        Some((a, b)) => state.gives(Value::Bool(in_order(order, a, b))),
        None => Ok(Outcome::NoCase),
    }
}
