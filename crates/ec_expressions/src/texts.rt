//! The texts of a program's core, in the order in which they stand.
ghost use Rattle.std.specs.Prelude.{◌≡◌, ◌++◌, [], ◌∷◌, IfOk, OnOk, map, option_map};
ghost use Rattle.ec_emission.specs.Literals as spec;
ghost use Rattle.ec_core.specs.Literals as part;

use ec_base::list::Seq;
use ec_core::{Addend, Arm, Block, Constant, Core, Expression, Factor, Link, Operation, Statement};
use ec_world::value::Text;
use std::alloc::{AllocError, Global};

/// The texts of a core: those of its constants, and then those of its operations. The error is want of memory.
pub(crate) fn texts_of(alloc: Global, core: &Core) -> Result<Seq<Text>, AllocError>
    ensures { IfOk result
        (λ texts. texts ≡ spec.texts_of_constants core.now.constants ++ spec.texts_of_operations core.now.operations) }
{
    let mut found = Seq::new(alloc);
    add_constants(core.constants.as_slice(), &mut found)?;
    add_operations(core.operations.as_slice(), &mut found)?;
    Ok(found)
}

fn add_constants(constants: &[Constant], found: &mut Seq<Text>) -> Result<(), AllocError>
    ensures { OnOk result (found.new ≡ found.old ++ spec.texts_of_constants constants.now) }
{
    for constant in constants {
        add_expression(&constant.value, found)?;
    }
    Ok(())
}

fn add_operations(operations: &[Operation], found: &mut Seq<Text>) -> Result<(), AllocError>
    ensures { OnOk result (found.new ≡ found.old ++ spec.texts_of_operations operations.now) }
{
    for operation in operations {
        add_block(&operation.block, found)?;
    }
    Ok(())
}

// ---- statements

#[cycle(blocks)]
fn add_block(block: &Block, found: &mut Seq<Text>) -> Result<(), AllocError>
    ensures { OnOk result (found.new ≡ found.old ++ part.texts_of_block block.now) }
{
    add_statements(block.statements.as_slice(), found)
}

#[cycle(blocks)]
fn add_statements(statements: &[Statement], found: &mut Seq<Text>) -> Result<(), AllocError>
    ensures { OnOk result (found.new ≡ found.old ++ part.joined (map part.texts_of_statement statements.now)) }
{
    for statement in statements {
        add_statement(statement, found)?;
    }
    Ok(())
}

#[cycle(blocks)]
fn add_statement(statement: &Statement, found: &mut Seq<Text>) -> Result<(), AllocError>
    ensures { OnOk result (found.new ≡ found.old ++ part.texts_of_statement statement.now) }
{
    match statement {
        Statement::Declare(_, x) | Statement::Exit(x) => add_if_there(x, found),
        Statement::Assign(_, x)
        | Statement::Drop(x)
        | Statement::Print(x)
        | Statement::Assert(x, _)
        | Statement::Unfix(x, _) => add_expression(x, found),
        Statement::SetElement(vector, number, x, _) => {
            add_expression(vector, found)?;
            add_expression(number, found)?;
            add_expression(x, found)
        }
        Statement::If(arms, other) => {
            add_arms(arms.as_slice(), found)?;
            add_block_if_there(other, found)
        }
        Statement::Loop(body) => add_block(body, found),
        Statement::Move(x, to, _) | Statement::Fix(x, to, _) | Statement::Refix(x, to, _) => {
            add_expression(x, found)?;
            add_expression(to, found)
        }
        Statement::Return | Statement::Wait(_) | Statement::Signal(_) => Ok(()),
    }
}

#[cycle(blocks)]
fn add_arms(arms: &[Arm], found: &mut Seq<Text>) -> Result<(), AllocError>
    ensures { OnOk result (found.new ≡ found.old ++ part.joined (map part.texts_of_arm arms.now)) }
{
    for arm in arms {
        add_expression(&arm.condition, found)?;
        add_block(&arm.block, found)?;
    }
    Ok(())
}

#[cycle(blocks)]
fn add_block_if_there(block: &Option<Block>, found: &mut Seq<Text>) -> Result<(), AllocError>
    ensures { OnOk result (found.new ≡ found.old ++ part.if_there (option_map part.texts_of_block block.now)) }
{
    match block {
        None => Ok(()),
        Some(block) => add_block(block, found),
    }
}

fn add_if_there(x: &Option<Expression>, found: &mut Seq<Text>) -> Result<(), AllocError>
    ensures { OnOk result (found.new ≡ found.old ++ part.texts_if x.now) }
{
    match x {
        None => Ok(()),
        Some(x) => add_expression(x, found),
    }
}

// ---- expressions

/// The texts of an expression behind those that were found. The error is want of memory.
#[cycle(expressions)]
fn add_expression(x: &Expression, found: &mut Seq<Text>) -> Result<(), AllocError>
    ensures { OnOk result (found.new ≡ found.old ++ part.texts_of x.now) }
{
    match x {
        Expression::Literal(text) => add(text.as_slice(), found),
        Expression::NodeAt(x, _)
        | Expression::NewVector(_, x, _)
        | Expression::Negative(x)
        | Expression::Not(x)
        | Expression::View(x, _, _)
        | Expression::IsFixed(x, _) => add_expression(x.get(), found),
        Expression::Create(_, xs) => add_all(xs.as_slice(), found),
        Expression::Chain(head, links) => {
            add_expression(head.get(), found)?;
            add_links(links.as_slice(), found)
        }
        Expression::Term(first, factors) => {
            add_expression(first.get(), found)?;
            add_factors(factors.as_slice(), found)
        }
        Expression::Sum(first, addends) => {
            add_expression(first.get(), found)?;
            add_addends(addends.as_slice(), found)
        }
        Expression::Compare(left, _, _, right) => {
            add_expression(left.get(), found)?;
            add_expression(right.get(), found)
        }
        Expression::And(first, more) | Expression::Or(first, more) => {
            add_expression(first.get(), found)?;
            add_all(more.as_slice(), found)
        }
        // what has no expression in it
        _ => Ok(()),
    }
}

fn add(text: &[u8], found: &mut Seq<Text>) -> Result<(), AllocError>
    ensures { OnOk result (found.new ≡ found.old ++ text.now ∷ []) }
{
    let copied = Vec::from_slice(found.allocator(), text)?;
    found.push(Seq::from_vec(copied))
}

#[cycle(expressions)]
fn add_all(xs: &[Expression], found: &mut Seq<Text>) -> Result<(), AllocError>
    ensures { OnOk result (found.new ≡ found.old ++ part.joined (map part.texts_of xs.now)) }
{
    for x in xs {
        add_expression(x, found)?;
    }
    Ok(())
}

#[cycle(expressions)]
fn add_links(links: &[Link], found: &mut Seq<Text>) -> Result<(), AllocError>
    ensures { OnOk result (found.new ≡ found.old ++ part.joined (map part.texts_of_link links.now)) }
{
    for link in links {
        add_link(link, found)?;
    }
    Ok(())
}

#[cycle(expressions)]
fn add_link(link: &Link, found: &mut Seq<Text>) -> Result<(), AllocError>
    ensures { OnOk result (found.new ≡ found.old ++ part.texts_of_link link.now) }
{
    match link {
        Link::Invoke(_, xs, _, _) => add_all(xs.as_slice(), found),
        Link::Call(_, xs, _) => add_all(xs.as_slice(), found),
        Link::Element(x, _, _) => add_expression(x, found),
    }
}

#[cycle(expressions)]
fn add_addends(addends: &[Addend], found: &mut Seq<Text>) -> Result<(), AllocError>
    ensures { OnOk result (found.new ≡ found.old ++ part.joined (map part.texts_of_addend addends.now)) }
{
    for a in addends {
        add_expression(&a.value, found)?;
    }
    Ok(())
}

#[cycle(expressions)]
fn add_factors(factors: &[Factor], found: &mut Seq<Text>) -> Result<(), AllocError>
    ensures { OnOk result (found.new ≡ found.old ++ part.joined (map part.texts_of_factor factors.now)) }
{
    for f in factors {
        add_expression(&f.value, found)?;
    }
    Ok(())
}
