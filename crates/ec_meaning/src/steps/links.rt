//! Calls and indices.
ghost use Rattle.std.specs.Prelude.{◌≡◌, ◌+◌, ◌++◌, ◌∷◌, IfOk, OnOk, length};
ghost use Rattle.ec_core.specs.declared.Link.{out-Link};
ghost use Rattle.ec_meaning.specs.Running.{after, came};
ghost use Rattle.ec_meaning.specs.Programs as source;
ghost use Rattle.ec_meaning.specs.Sources.{source_of};
ghost use Rattle.ec_meaning.specs.Steps as spec;

use crate::item::Item;
use crate::source::Program;
use crate::state::{Outcome, State};
use crate::steps::lists::{count_of, evaluate_all, one_more};
use crate::todo::Todo;
use ec_ast::Text;
use ec_core::{At, Builtin, Expression, Link};
use ec_world::stop::Stop;
use sqlite_items::Items;
use std::alloc::AllocError;

/// A call or an index of the value held last: what it takes, and then its stop. The error is want of memory, or a count of
/// operands that has more than 32 bits.
pub(crate) fn follow(
    link: Link,
    program: &Program<'_>,
    state: &State,
    todo: &mut Todo,
) -> Result<Outcome, AllocError>
    ensures { IfOk result
        (λ o. came o state.now todo.new ≡ after state.now todo.old (spec.follow (source_of program.now) state.now (out-Link link))) }
{
    match link {
        Link::Invoke(name, xs, _, at) => invoke(name, xs, at, program, todo),
        Link::Call(builtin, xs, at) => call(builtin, xs, at, program, todo),
        Link::Element(x, _, at) => element(x, at, program, todo),
    }
}

/// Arguments behind a receiver, and then a stop. The error is want of memory, or a count that has more than 32 bits.
fn arguments(xs: Items<Expression>, stop: Stop, todo: &mut Todo) -> Result<Outcome, AllocError>
    ensures goes { IfOk result (λ o. o ≡ Outcome.Goes) }
    ensures next { OnOk result (todo.new ≡ spec.evaluated xs ++ Item.Rest stop (1 + length xs) ∷ todo.old) }
{
    let takes = one_more(count_of(xs.len())?)?;
    todo.push(Item::Rest { stop, takes })?;
    evaluate_all(todo, xs)?;
    Ok(Outcome::Goes)
}

/// The error is want of memory, or a count of operands that has more than 32 bits.
fn invoke(
    name: Text,
    xs: Items<Expression>,
    at: At,
    program: &Program<'_>,
    todo: &mut Todo,
) -> Result<Outcome, AllocError>
    ensures goes { IfOk result (λ o. o ≡ Outcome.Goes) }
    ensures next { OnOk result
        (todo.new ≡ spec.evaluated xs
        ++ Item.Rest
        (Stop.Invoke (source.name_number (source_of program.now) name) (source.line (source_of program.now) at))
        (1 + length xs) ∷ todo.old) }
{
    let name = program.name_number(name.as_slice())?;
    let line = program.line(at);
    arguments(xs, Stop::Invoke { name, line }, todo)
}

/// The stop of an operation that needs no declaration.
fn stop_of(builtin: Builtin, line: u32) -> Stop
    ensures { result ≡ spec.stop_of builtin line }
{
    match builtin {
        Builtin::AsString => Stop::AsString,
        Builtin::Length => Stop::Length,
        Builtin::GetSlice => Stop::GetSlice { line },
        Builtin::Size => Stop::Size { line },
    }
}

/// The error is want of memory, or a count of operands that has more than 32 bits.
fn call(
    builtin: Builtin,
    xs: Items<Expression>,
    at: At,
    program: &Program<'_>,
    todo: &mut Todo,
) -> Result<Outcome, AllocError>
    ensures goes { IfOk result (λ o. o ≡ Outcome.Goes) }
    ensures next { OnOk result
        (todo.new ≡ spec.evaluated xs
        ++ Item.Rest (spec.stop_of builtin (source.line (source_of program.now) at)) (1 + length xs) ∷ todo.old) }
{
    let line = program.line(at);
    arguments(xs, stop_of(builtin, line), todo)
}

/// The error is want of memory.
fn element(
    x: Expression,
    at: At,
    program: &Program<'_>,
    todo: &mut Todo,
) -> Result<Outcome, AllocError>
    ensures goes { IfOk result (λ o. o ≡ Outcome.Goes) }
    ensures next { OnOk result (todo.new ≡ Item.Evaluate x ∷ Item.Rest (Stop.Get (source.line (source_of program.now) at)) 2 ∷ todo.old) }
{
    let line = program.line(at);
    let stop = Stop::Get { line };
    todo.then_two(Item::Evaluate(x), Item::Rest { stop, takes: 2 })
}
