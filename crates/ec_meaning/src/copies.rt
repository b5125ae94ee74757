//! Deep copies of the core.
ghost use Rattle.std.specs.Prelude.{◌≡◌, IfOk};

use ec_ast::Text;
use ec_core::{Addend, Arm, At, Block, Expression, Factor, Link, Statement};
use sqlite_items::{Boxed, Items};
use std::alloc::{AllocError, Global};

/// The same expression again. The error is want of memory.
#[cycle(expressions)]
pub(crate) fn copy_expression(alloc: Global, x: &Expression) -> Result<Expression, AllocError>
    ensures { IfOk result (λ copied. copied ≡ x.now) }
{
    match x {
        Expression::Number(n) => Ok(Expression::Number(*n)),
        Expression::Literal(text) => Ok(Expression::Literal(copy_text(alloc, text)?)),
        Expression::Truth(b) => Ok(Expression::Truth(*b)),
        Expression::Nil => Ok(Expression::Nil),
        Expression::Itself => Ok(Expression::Itself),
        Expression::Read(place) => Ok(Expression::Read(*place)),
        Expression::NodeCount => Ok(Expression::NodeCount),
        Expression::NodeAt(x, at) => Ok(Expression::NodeAt(copy_boxed(alloc, x.get())?, *at)),
        Expression::NewVector(of, x, at) => {
            Ok(Expression::NewVector(*of, copy_boxed(alloc, x.get())?, *at))
        }
        Expression::Construct(class, places) => {
            Ok(Expression::Construct(*class, Items::from_slice(alloc, places.as_slice())?))
        }
        Expression::Create(class, xs) => {
            Ok(Expression::Create(*class, copy_expressions(alloc, xs.as_slice())?))
        }
        Expression::Chain(head, links) => {
            let first = copy_boxed(alloc, head.get())?;
            Ok(Expression::Chain(first, copy_links(alloc, links.as_slice())?))
        }
        Expression::Negative(x) => Ok(Expression::Negative(copy_boxed(alloc, x.get())?)),
        Expression::Not(x) => Ok(Expression::Not(copy_boxed(alloc, x.get())?)),
        Expression::View(x, of, at) => {
            Ok(Expression::View(copy_boxed(alloc, x.get())?, *of, *at))
        }
        Expression::IsFixed(x, at) => Ok(Expression::IsFixed(copy_boxed(alloc, x.get())?, *at)),
        Expression::Term(head, factors) => {
            let first = copy_boxed(alloc, head.get())?;
            Ok(Expression::Term(first, copy_factors(alloc, factors.as_slice())?))
        }
        Expression::Sum(head, addends) => {
            let first = copy_boxed(alloc, head.get())?;
            Ok(Expression::Sum(first, copy_addends(alloc, addends.as_slice())?))
        }
        Expression::Compare(left, op, what, right) => {
            let a = copy_boxed(alloc, left.get())?;
            Ok(Expression::Compare(a, *op, *what, copy_boxed(alloc, right.get())?))
        }
        Expression::And(head, more) => {
            let first = copy_boxed(alloc, head.get())?;
            Ok(Expression::And(first, copy_expressions(alloc, more.as_slice())?))
        }
        Expression::Or(head, more) => {
            let first = copy_boxed(alloc, head.get())?;
            Ok(Expression::Or(first, copy_expressions(alloc, more.as_slice())?))
        }
    }
}

fn copy_text(alloc: Global, text: &Text) -> Result<Text, AllocError>
    ensures { IfOk result (λ copied. copied ≡ text.now) }
{
    Items::from_slice(alloc, text.as_slice())
}

#[cycle(expressions)]
fn copy_boxed(alloc: Global, x: &Expression) -> Result<Boxed<Expression>, AllocError>
    ensures { IfOk result (λ copied. copied ≡ x.now) }
{
    Boxed::new(alloc, copy_expression(alloc, x)?)
}

#[cycle(expressions)]
fn copy_expressions(alloc: Global, xs: &[Expression]) -> Result<Items<Expression>, AllocError>
    ensures { IfOk result (λ copied. copied ≡ xs.now) }
{
    let mut copied = Items::new(alloc);
    for x in xs {
        copied.push(copy_expression(alloc, x)?)?;
    }
    Ok(copied)
}

#[cycle(expressions)]
fn copy_link(alloc: Global, x: &Link) -> Result<Link, AllocError>
    ensures { IfOk result (λ copied. copied ≡ x.now) }
{
    match x {
        Link::Invoke(name, xs, of, at) => {
            let named = copy_text(alloc, name)?;
            Ok(Link::Invoke(named, copy_expressions(alloc, xs.as_slice())?, *of, *at))
        }
        Link::Call(builtin, xs, at) => {
            Ok(Link::Call(*builtin, copy_expressions(alloc, xs.as_slice())?, *at))
        }
        Link::Element(x, of, at) => Ok(Link::Element(copy_expression(alloc, x)?, *of, *at)),
    }
}

#[cycle(expressions)]
fn copy_links(alloc: Global, links: &[Link]) -> Result<Items<Link>, AllocError>
    ensures { IfOk result (λ copied. copied ≡ links.now) }
{
    let mut copied = Items::new(alloc);
    for link in links {
        copied.push(copy_link(alloc, link)?)?;
    }
    Ok(copied)
}

#[cycle(expressions)]
fn copy_factors(alloc: Global, factors: &[Factor]) -> Result<Items<Factor>, AllocError>
    ensures { IfOk result (λ copied. copied ≡ factors.now) }
{
    let mut copied = Items::new(alloc);
    for f in factors {
        copied.push(Factor {
            operator: f.operator,
            value: copy_expression(alloc, &f.value)?,
            at: f.at,
        })?;
    }
    Ok(copied)
}

#[cycle(expressions)]
fn copy_addends(alloc: Global, addends: &[Addend]) -> Result<Items<Addend>, AllocError>
    ensures { IfOk result (λ copied. copied ≡ addends.now) }
{
    let mut copied = Items::new(alloc);
    for a in addends {
        copied.push(Addend {
            operator: a.operator,
            value: copy_expression(alloc, &a.value)?,
            at: a.at,
        })?;
    }
    Ok(copied)
}

/// The same block again. The error is want of memory.
#[cycle(blocks)]
pub(crate) fn copy_block(alloc: Global, x: &Block) -> Result<Block, AllocError>
    ensures { IfOk result (λ copied. copied ≡ x.now) }
{
    Ok(Block {
        statements: copy_statements(alloc, x.statements.as_slice())?,
    })
}

#[cycle(blocks)]
fn copy_statements(alloc: Global, statements: &[Statement]) -> Result<Items<Statement>, AllocError>
    ensures { IfOk result (λ copied. copied ≡ statements.now) }
{
    let mut copied = Items::new(alloc);
    for s in statements {
        copied.push(copy_statement(alloc, s)?)?;
    }
    Ok(copied)
}

#[cycle(blocks)]
fn copy_statement(alloc: Global, x: &Statement) -> Result<Statement, AllocError>
    ensures { IfOk result (λ copied. copied ≡ x.now) }
{
    match x {
        Statement::Declare(variable, value) => {
            Ok(Statement::Declare(*variable, copy_value(alloc, value)?))
        }
        Statement::Assign(place, x) => Ok(Statement::Assign(*place, copy_expression(alloc, x)?)),
        Statement::SetElement(vector, number, x, at) => {
            copy_set_element(alloc, vector, number, x, *at)
        }
        Statement::Drop(x) => Ok(Statement::Drop(copy_expression(alloc, x)?)),
        Statement::Print(x) => Ok(Statement::Print(copy_expression(alloc, x)?)),
        Statement::If(arms, other) => {
            let all = copy_arms(alloc, arms.as_slice())?;
            Ok(Statement::If(all, copy_other(alloc, other)?))
        }
        Statement::Loop(block) => Ok(Statement::Loop(copy_block(alloc, block)?)),
        Statement::Exit(when) => Ok(Statement::Exit(copy_value(alloc, when)?)),
        Statement::Return => Ok(Statement::Return),
        Statement::Assert(x, at) => Ok(Statement::Assert(copy_expression(alloc, x)?, *at)),
        Statement::Move(x, to, at) => {
            let moved = copy_expression(alloc, x)?;
            Ok(Statement::Move(moved, copy_expression(alloc, to)?, *at))
        }
        Statement::Fix(x, to, at) => {
            let fixed = copy_expression(alloc, x)?;
            Ok(Statement::Fix(fixed, copy_expression(alloc, to)?, *at))
        }
        Statement::Refix(x, to, at) => {
            let fixed = copy_expression(alloc, x)?;
            Ok(Statement::Refix(fixed, copy_expression(alloc, to)?, *at))
        }
        Statement::Unfix(x, at) => Ok(Statement::Unfix(copy_expression(alloc, x)?, *at)),
        Statement::Wait(condition) => Ok(Statement::Wait(*condition)),
        Statement::Signal(condition) => Ok(Statement::Signal(*condition)),
    }
}

/// An element that is set, of its parts.
fn copy_set_element(
    alloc: Global,
    vector: &Expression,
    number: &Expression,
    x: &Expression,
    at: At,
) -> Result<Statement, AllocError>
    ensures { IfOk result (λ copied. copied ≡ Statement.SetElement vector.now number.now x.now at) }
{
    let of = copy_expression(alloc, vector)?;
    let index = copy_expression(alloc, number)?;
    Ok(Statement::SetElement(of, index, copy_expression(alloc, x)?, at))
}

fn copy_value(alloc: Global, x: &Option<Expression>) -> Result<Option<Expression>, AllocError>
    ensures { IfOk result (λ copied. copied ≡ x.now) }
{
    match x {
        None => Ok(None),
        Some(x) => Ok(Some(copy_expression(alloc, x)?)),
    }
}

#[cycle(blocks)]
fn copy_other(alloc: Global, x: &Option<Block>) -> Result<Option<Block>, AllocError>
    ensures { IfOk result (λ copied. copied ≡ x.now) }
{
    match x {
        None => Ok(None),
        Some(block) => Ok(Some(copy_block(alloc, block)?)),
    }
}

#[cycle(blocks)]
fn copy_arms(alloc: Global, arms: &[Arm]) -> Result<Items<Arm>, AllocError>
    ensures { IfOk result (λ copied. copied ≡ arms.now) }
{
    let mut copied = Items::new(alloc);
    for arm in arms {
        copied.push(copy_arm(alloc, arm)?)?;
    }
    Ok(copied)
}

#[cycle(blocks)]
fn copy_arm(alloc: Global, arm: &Arm) -> Result<Arm, AllocError>
    ensures { IfOk result (λ copied. copied ≡ arm.now) }
{
    Ok(Arm {
        condition: copy_expression(alloc, &arm.condition)?,
        block: copy_block(alloc, &arm.block)?,
    })
}
