//! Expressions.
ghost use Rattle.std.specs.Prelude.{◌≡◌, ◌++◌, ◌∷◌, [], IfOk, OnOk, length, map, pos};
ghost use Rattle.ec_core.specs.declared.Addend.{out-Addend};
ghost use Rattle.ec_core.specs.declared.Expression.{out-Expression};
ghost use Rattle.ec_core.specs.declared.Expression.TheVariants as e;
ghost use Rattle.ec_core.specs.declared.Factor.{out-Factor};
ghost use Rattle.ec_meaning.specs.Running.{after, came};
ghost use Rattle.ec_meaning.specs.Programs as source;
ghost use Rattle.ec_meaning.specs.Sources.{source_of};
ghost use Rattle.ec_meaning.specs.Steps as spec;
ghost use Rattle.ec_meaning.specs.Types as types;

use crate::item::Item;
use crate::source::Program;
use crate::state::{Outcome, State, Whose};
use crate::steps::lists::{
    add_all, and_all, count_of, evaluate_all, follow_all, multiply_all, or_all, read_all,
};
use crate::steps::places::read;
use crate::todo::Todo;
use crate::types::{vector_type, viewed_as};
use ec_ast::{Comparison, Text};
use ec_base::list::Seq;
use ec_core::{Addend, At, Compared, Expression, Factor, Link, Place};
use ec_types::conform::static_type::StaticType;
use ec_world::stop::{Order, Stop};
use ec_world::value::Value;
use sqlite_items::{Boxed, Items};
use std::alloc::AllocError;

/// An expression is evaluated. The error is want of memory, a number that has more than 31 bits, a number of a type or a
/// count of operands that has more than 32, or a field whose number has more than 64.
pub(crate) fn evaluate(
    x: Expression,
    program: &Program<'_>,
    whose: Whose,
    state: &mut State,
    todo: &mut Todo,
) -> Result<Outcome, AllocError>
    ensures { IfOk result
        (λ o. came o state.new todo.new ≡ after state.old todo.old
        (spec.evaluate (source_of program.now) whose state.old (out-Expression x))) }
{
    match x {
        Expression::Number(n) => number(n, state),
        Expression::Literal(text) => literal(text, state),
        Expression::Truth(b) => state.gives(Value::Bool(b)),
        Expression::Nil => state.gives(Value::Nil),
        Expression::Itself => state.gives(Value::Ref(whose.own)),
        Expression::Read(place) => read(place, program, whose.own, state, todo),
        Expression::NodeCount => todo.then_rest(Stop::NodeCount, 0),
        Expression::NodeAt(x, at) => node_at(x, at, program, todo),
        Expression::NewVector(of, x, at) => new_vector(of, x, at, program, todo),
        Expression::Construct(class, places) => construct(class, places, program, todo),
        Expression::Create(class, xs) => create(class, xs, program, todo),
        Expression::Chain(head, links) => chain(head, links, todo),
        Expression::Negative(x) => then_item(x, Item::Negate, todo),
        Expression::Not(x) => then_item(x, Item::Invert, todo),
        Expression::View(x, of, at) => view(x, of, at, program, todo),
        Expression::IsFixed(x, at) => is_fixed(x, at, program, todo),
        Expression::Term(first, factors) => term(first, factors, todo),
        Expression::Sum(first, addends) => sum(first, addends, todo),
        Expression::Compare(left, op, what, right) => both_sides(left, op, what, right, todo),
        Expression::And(first, more) => and(first, more, todo),
        Expression::Or(first, more) => or(first, more, todo),
    }
}

/// The error is want of memory, or a number that has more than 31 bits.
fn number(n: u32, state: &mut State) -> Result<Outcome, AllocError>
    ensures goes { IfOk result (λ o. o ≡ Outcome.Goes) }
    ensures given { OnOk result (state.new ≡ spec.pushed state.old (Value.Int (pos n))) }
{
    match i32::try_from(n) {
        Ok(z) => state.gives(Value::Int(z)),
        Err(_) => Err(AllocError),
    }
}

/// The error is want of memory.
fn literal(text: Text, state: &mut State) -> Result<Outcome, AllocError>
    ensures goes { IfOk result (λ o. o ≡ Outcome.Goes) }
    ensures given { OnOk result (state.new ≡ spec.pushed state.old (Value.Str text)) }
{
    let bytes = Vec::from_slice(state.held.allocator(), text.as_slice())?;
    state.gives(Value::Str(Seq::from_vec(bytes)))
}

/// An expression, and then what is done with its value. The error is want of memory.
fn then_item(x: Boxed<Expression>, next: Item, todo: &mut Todo) -> Result<Outcome, AllocError>
    ensures goes { IfOk result (λ o. o ≡ Outcome.Goes) }
    ensures next { OnOk result (todo.new ≡ Item.Evaluate x ∷ next ∷ todo.old) }
{
    todo.then_two(Item::Evaluate(x.into_inner()), next)
}

/// The error is want of memory.
fn node_at(
    x: Boxed<Expression>,
    at: At,
    program: &Program<'_>,
    todo: &mut Todo,
) -> Result<Outcome, AllocError>
    ensures goes { IfOk result (λ o. o ≡ Outcome.Goes) }
    ensures next { OnOk result
        (todo.new ≡ Item.Evaluate x ∷ Item.Rest (Stop.NodeAt (source.line (source_of program.now) at)) 1 ∷ todo.old) }
{
    let line = program.line(at);
    let stop = Stop::NodeAt { line };
    then_item(x, Item::Rest { stop, takes: 1 }, todo)
}

/// The error is want of memory, or a type's number that has more than 32 bits.
fn new_vector(
    of: StaticType,
    x: Boxed<Expression>,
    at: At,
    program: &Program<'_>,
    todo: &mut Todo,
) -> Result<Outcome, AllocError>
    ensures goes { IfOk result (λ o. o ≡ Outcome.Goes) }
    ensures next { OnOk result
        (todo.new ≡ Item.Evaluate x ∷ Item.Rest (Stop.NewVector (types.vector_type of) (source.line (source_of program.now) at))
        1 ∷ todo.old) }
{
    let of = vector_type(of)?;
    let line = program.line(at);
    let stop = Stop::NewVector { of, line };
    then_item(x, Item::Rest { stop, takes: 1 }, todo)
}

/// The error is want of memory, or a count or a type's number that has more than 32 bits.
fn construct(
    class: usize,
    places: Items<Place>,
    program: &Program<'_>,
    todo: &mut Todo,
) -> Result<Outcome, AllocError>
    ensures goes { IfOk result (λ o. o ≡ Outcome.Goes) }
    ensures next { OnOk result
        (todo.new ≡ map (λ p. Item.Evaluate (e.Read p)) places
        ++ Item.Rest (Stop.New (source.class_number (source_of program.now) class)) (length places) ∷ todo.old) }
{
    let class = program.class_number(class)?;
    let takes = count_of(places.len())?;
    let stop = Stop::New { class };
    todo.push(Item::Rest { stop, takes })?;
    read_all(todo, places)?;
    Ok(Outcome::Goes)
}

/// The error is want of memory, or a count or a type's number that has more than 32 bits.
fn create(
    class: usize,
    xs: Items<Expression>,
    program: &Program<'_>,
    todo: &mut Todo,
) -> Result<Outcome, AllocError>
    ensures goes { IfOk result (λ o. o ≡ Outcome.Goes) }
    ensures next { OnOk result
        (todo.new ≡ spec.evaluated xs ++ Item.Rest (Stop.New (source.class_number (source_of program.now) class)) (length xs) ∷ todo.old) }
{
    let class = program.class_number(class)?;
    let takes = count_of(xs.len())?;
    let stop = Stop::New { class };
    todo.push(Item::Rest { stop, takes })?;
    evaluate_all(todo, xs)?;
    Ok(Outcome::Goes)
}

/// The error is want of memory.
fn chain(
    head: Boxed<Expression>,
    links: Items<Link>,
    todo: &mut Todo,
) -> Result<Outcome, AllocError>
    ensures goes { IfOk result (λ o. o ≡ Outcome.Goes) }
    ensures next { OnOk result (todo.new ≡ Item.Evaluate head ∷ (map Item.Follow links ++ todo.old)) }
{
    follow_all(todo, links)?;
    todo.then(Item::Evaluate(head.into_inner()))
}

/// The error is want of memory, or a type's number that has more than 32 bits.
fn view(
    x: Boxed<Expression>,
    of: StaticType,
    at: At,
    program: &Program<'_>,
    todo: &mut Todo,
) -> Result<Outcome, AllocError>
    ensures goes { IfOk result (λ o. o ≡ Outcome.Goes) }
    ensures next { OnOk result
        (todo.new ≡ Item.Evaluate x ∷ Item.Rest
        (Stop.View (types.viewed_as (source_of program.now).table of) (source.line (source_of program.now) at)) 1 ∷ todo.old) }
{
    let to = viewed_as(program.table(), of)?;
    let line = program.line(at);
    let stop = Stop::View { to, line };
    then_item(x, Item::Rest { stop, takes: 1 }, todo)
}

/// The error is want of memory.
fn is_fixed(
    x: Boxed<Expression>,
    at: At,
    program: &Program<'_>,
    todo: &mut Todo,
) -> Result<Outcome, AllocError>
    ensures goes { IfOk result (λ o. o ≡ Outcome.Goes) }
    ensures next { OnOk result
        (todo.new ≡ Item.Evaluate x ∷ Item.Rest (Stop.IsFixed (source.line (source_of program.now) at)) 1 ∷ todo.old) }
{
    let line = program.line(at);
    let stop = Stop::IsFixed { line };
    then_item(x, Item::Rest { stop, takes: 1 }, todo)
}

/// The error is want of memory.
fn term(
    first: Boxed<Expression>,
    factors: Items<Factor>,
    todo: &mut Todo,
) -> Result<Outcome, AllocError>
    ensures goes { IfOk result (λ o. o ≡ Outcome.Goes) }
    ensures next { OnOk result (todo.new ≡ Item.Evaluate first ∷ (map Item.Multiply factors ++ todo.old)) }
{
    multiply_all(todo, factors)?;
    todo.then(Item::Evaluate(first.into_inner()))
}

/// The error is want of memory.
fn sum(
    first: Boxed<Expression>,
    addends: Items<Addend>,
    todo: &mut Todo,
) -> Result<Outcome, AllocError>
    ensures goes { IfOk result (λ o. o ≡ Outcome.Goes) }
    ensures next { OnOk result (todo.new ≡ Item.Evaluate first ∷ (map Item.Add addends ++ todo.old)) }
{
    add_all(todo, addends)?;
    todo.then(Item::Evaluate(first.into_inner()))
}

/// The stop at which two texts are compared, by their order.
fn order_of_texts(order: Order) -> Item
    ensures { result ≡ Item.Rest (Stop.Compare order) 2 }
{
    let stop = Stop::Compare { order };
    Item::Rest { stop, takes: 2 }
}

/// What is done with the two sides of a comparison: the order of texts is a stop's; every other comparison is one of values.
fn comparing(op: Comparison, what: Compared) -> Item
    ensures { result ≡ spec.comparing op what }
{
    match (op, what) {
        (Comparison::Less, Compared::Texts) => order_of_texts(Order::Less),
        (Comparison::LessEqual, Compared::Texts) => order_of_texts(Order::LessEqual),
        (Comparison::More, Compared::Texts) => order_of_texts(Order::More),
        (Comparison::MoreEqual, Compared::Texts) => order_of_texts(Order::MoreEqual),
        _ => Item::Compare(op),
    }
}

/// The error is want of memory.
fn both_sides(
    left: Boxed<Expression>,
    op: Comparison,
    what: Compared,
    right: Boxed<Expression>,
    todo: &mut Todo,
) -> Result<Outcome, AllocError>
    ensures goes { IfOk result (λ o. o ≡ Outcome.Goes) }
    ensures next { OnOk result (todo.new ≡ Item.Evaluate left ∷ Item.Evaluate right ∷ spec.comparing op what ∷ todo.old) }
{
    todo.push(comparing(op, what))?;
    then_item(left, Item::Evaluate(right.into_inner()), todo)
}

/// The error is want of memory.
fn and(
    first: Boxed<Expression>,
    more: Items<Expression>,
    todo: &mut Todo,
) -> Result<Outcome, AllocError>
    ensures goes { IfOk result (λ o. o ≡ Outcome.Goes) }
    ensures next { OnOk result (todo.new ≡ Item.Evaluate first ∷ (map Item.AndThen more ++ todo.old)) }
{
    and_all(todo, more)?;
    todo.then(Item::Evaluate(first.into_inner()))
}

/// The error is want of memory.
fn or(
    first: Boxed<Expression>,
    more: Items<Expression>,
    todo: &mut Todo,
) -> Result<Outcome, AllocError>
    ensures goes { IfOk result (λ o. o ≡ Outcome.Goes) }
    ensures next { OnOk result (todo.new ≡ Item.Evaluate first ∷ (map Item.OrElse more ++ todo.old)) }
{
    or_all(todo, more)?;
    todo.then(Item::Evaluate(first.into_inner()))
}

/// What an operator of a product takes to its right, and then the operator. The error is want of memory.
pub(crate) fn multiply(
    factor: Factor,
    state: &State,
    todo: &mut Todo,
) -> Result<Outcome, AllocError>
    ensures { IfOk result
        (λ o. came o state.now todo.new ≡ after state.now todo.old
        (spec.Goes state.now
        (Item.Evaluate (out-Factor factor).value ∷ Item.Calculate (out-Factor factor).operator (out-Factor factor).at ∷ []))) }
{
    let next = Item::Calculate(factor.operator, factor.at);
    todo.then_two(Item::Evaluate(factor.value), next)
}

/// What an operator of a sum takes to its right, and then the operator. The error is want of memory.
pub(crate) fn add(addend: Addend, state: &State, todo: &mut Todo) -> Result<Outcome, AllocError>
    ensures { IfOk result
        (λ o. came o state.now todo.new ≡ after state.now todo.old
        (spec.Goes state.now
        (Item.Evaluate (out-Addend addend).value ∷ Item.Join (out-Addend addend).operator (out-Addend addend).at ∷ []))) }
{
    let next = Item::Join(addend.operator, addend.at);
    todo.then_two(Item::Evaluate(addend.value), next)
}
