//! Chains of operators and of links.

ghost use Rattle.std.specs.Prelude.{◌≡◌, IfOk};
ghost use Rattle.ec_parser.specs.Chains as chains;

use ec_ast::{Addend, Expression, Factor, Link};
use sqlite_items::{Boxed, Items};
use std::alloc::{AllocError, Global};

pub(super) fn or_of(
    alloc: Global,
    first: Expression,
    more: Items<Expression>,
) -> Result<Expression, AllocError>
    ensures { IfOk result (λ e. e ≡ chains.or_of first more) }
{
    if more.is_empty() {
        return Ok(first);
    }
    Ok(Expression::Or(Boxed::new(alloc, first)?, more))
}

pub(super) fn and_of(
    alloc: Global,
    first: Expression,
    more: Items<Expression>,
) -> Result<Expression, AllocError>
    ensures { IfOk result (λ e. e ≡ chains.and_of first more) }
{
    if more.is_empty() {
        return Ok(first);
    }
    Ok(Expression::And(Boxed::new(alloc, first)?, more))
}

pub(super) fn sum_of(
    alloc: Global,
    first: Expression,
    more: Items<Addend>,
) -> Result<Expression, AllocError>
    ensures { IfOk result (λ e. e ≡ chains.sum_of first more) }
{
    if more.is_empty() {
        return Ok(first);
    }
    Ok(Expression::Sum(Boxed::new(alloc, first)?, more))
}

pub(super) fn term_of(
    alloc: Global,
    first: Expression,
    more: Items<Factor>,
) -> Result<Expression, AllocError>
    ensures { IfOk result (λ e. e ≡ chains.term_of first more) }
{
    if more.is_empty() {
        return Ok(first);
    }
    Ok(Expression::Term(Boxed::new(alloc, first)?, more))
}

pub(super) fn postfix_of(
    alloc: Global,
    first: Expression,
    more: Items<Link>,
) -> Result<Expression, AllocError>
    ensures { IfOk result (λ e. e ≡ chains.postfix_of first more) }
{
    if more.is_empty() {
        return Ok(first);
    }
    Ok(Expression::Postfix(Boxed::new(alloc, first)?, more))
}
