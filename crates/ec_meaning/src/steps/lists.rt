//! Several parts that are to be done, one after another.
ghost use Rattle.std.specs.Prelude.{◌≡◌, ◌+◌, ◌++◌, IfOk, OnOk, map};
ghost use Rattle.ec_core.specs.declared.Expression.TheVariants as e;
ghost use Rattle.ec_meaning.specs.Steps as spec;

use crate::item::Item;
use crate::todo::Todo;
use ec_core::{Addend, Block, Expression, Factor, Link, Place};
use sqlite_items::Items;
use std::alloc::AllocError;

/// A count as a number of 32 bits. Want of memory where it has more.
pub(crate) fn count_of(count: usize) -> Result<u32, AllocError>
    ensures { IfOk result (λ n. n ≡ count) }
{
    match u32::try_from(count) {
        Ok(n) => Ok(n),
        Err(_) => Err(AllocError),
    }
}

/// One more than a count. Want of memory where it has more than 32 bits.
pub(crate) fn one_more(count: u32) -> Result<u32, AllocError>
    ensures { IfOk result (λ n. n ≡ 1 + count) }
{
    match count.checked_add(1) {
        Some(n) => Ok(n),
        None => Err(AllocError),
    }
}

/// The statements of a block. The error is want of memory.
pub(crate) fn do_all(todo: &mut Todo, block: Block) -> Result<(), AllocError>
    ensures { OnOk result (todo.new ≡ spec.block_items block ++ todo.old) }
{
    let mut statements = block.statements;
    while let Some(statement) = statements.pop() {
        todo.push(Item::Do(statement))?;
    }
    Ok(())
}

/// Expressions, from left to right. The error is want of memory.
pub(crate) fn evaluate_all(todo: &mut Todo, xs: Items<Expression>) -> Result<(), AllocError>
    ensures { OnOk result (todo.new ≡ spec.evaluated xs ++ todo.old) }
{
    let mut xs = xs;
    while let Some(x) = xs.pop() {
        todo.push(Item::Evaluate(x))?;
    }
    Ok(())
}

/// The values of places. The error is want of memory.
pub(crate) fn read_all(todo: &mut Todo, places: Items<Place>) -> Result<(), AllocError>
    ensures { OnOk result (todo.new ≡ map (λ p. Item.Evaluate (e.Read p)) places ++ todo.old) }
{
    let mut places = places;
    while let Some(place) = places.pop() {
        todo.push(Item::Evaluate(Expression::Read(place)))?;
    }
    Ok(())
}

/// Calls and indices. The error is want of memory.
pub(crate) fn follow_all(todo: &mut Todo, links: Items<Link>) -> Result<(), AllocError>
    ensures { OnOk result (todo.new ≡ map Item.Follow links ++ todo.old) }
{
    let mut links = links;
    while let Some(link) = links.pop() {
        todo.push(Item::Follow(link))?;
    }
    Ok(())
}

/// Operators of a product. The error is want of memory.
pub(crate) fn multiply_all(todo: &mut Todo, factors: Items<Factor>) -> Result<(), AllocError>
    ensures { OnOk result (todo.new ≡ map Item.Multiply factors ++ todo.old) }
{
    let mut factors = factors;
    while let Some(factor) = factors.pop() {
        todo.push(Item::Multiply(factor))?;
    }
    Ok(())
}

/// Operators of a sum. The error is want of memory.
pub(crate) fn add_all(todo: &mut Todo, addends: Items<Addend>) -> Result<(), AllocError>
    ensures { OnOk result (todo.new ≡ map Item.Add addends ++ todo.old) }
{
    let mut addends = addends;
    while let Some(addend) = addends.pop() {
        todo.push(Item::Add(addend))?;
    }
    Ok(())
}

/// The right sides of `and`. The error is want of memory.
pub(crate) fn and_all(todo: &mut Todo, xs: Items<Expression>) -> Result<(), AllocError>
    ensures { OnOk result (todo.new ≡ map Item.AndThen xs ++ todo.old) }
{
    let mut xs = xs;
    while let Some(x) = xs.pop() {
        todo.push(Item::AndThen(x))?;
    }
    Ok(())
}

/// The right sides of `or`. The error is want of memory.
pub(crate) fn or_all(todo: &mut Todo, xs: Items<Expression>) -> Result<(), AllocError>
    ensures { OnOk result (todo.new ≡ map Item.OrElse xs ++ todo.old) }
{
    let mut xs = xs;
    while let Some(x) = xs.pop() {
        todo.push(Item::OrElse(x))?;
    }
    Ok(())
}
