//! What the action of a stop comes to, for whoever sees a world.
ghost use Rattle.std.specs.Prelude.{◌≡◌, IfOk};
ghost use Rattle.ec_world.specs.Doings.{doing_of, print_asks, global_asks};

use crate::doing::Doing;
use crate::operands::one;
use crate::sight::Sees;
use crate::stop::{Stop, Who};
use crate::value::{Value, Values};
use crate::{moving, operations, text, vectors, views};
use std::alloc::{AllocError, Global};

/// What the action of a stop comes to; none where the table has no case for such operands. An error is want of memory, a number
/// above 32 bits, or a count above 2,147,483,647 that is to be an Integer.
pub fn doing<W: Sees>(
    alloc: Global,
    world: &W,
    who: Who,
    stop: Stop,
    operands: Values,
) -> Result<Option<Doing>, AllocError>
    ensures { IfOk result (λ d. d ≡ doing_of (W.sight world.now) who stop operands) }
{
    match stop {
        Stop::Entry => Ok(Some(operations::enter(world, who))),
        Stop::Invoke { name, line } => Ok(operations::invoke(world, name, line, operands)),
        Stop::New { class } => Ok(operations::create(world, class, operands)),
        Stop::Return { gives_self } => Ok(operations::give_back(world, who, gives_self, operands)),
        Stop::NewVector { of, line } => Ok(vectors::new_vector(of, line, operands)),
        Stop::Get { line } => vectors::get_element(alloc, world, line, operands),
        Stop::Set { line } => Ok(vectors::set_element(world, line, operands)),
        Stop::Size { line } => vectors::count_elements(world, line, operands),
        Stop::Concat { line } => text::concat(line, operands),
        Stop::Length => text::count_bytes(operands),
        Stop::Compare { order } => Ok(text::compare(order, operands)),
        Stop::GetSlice { line } => text::get_slice(line, operands),
        Stop::AsString => text::as_string(alloc, operands),
        Stop::Print => Ok(print(operands)),
        Stop::Global { index } => Ok(define(world, index, operands)),
        Stop::NodeAt { line } => Ok(views::node_at(world, line, operands)),
        Stop::NodeCount => views::count_nodes(world),
        Stop::Move { line } => moving::move_group(alloc, world, line, operands),
        Stop::Fix { line } => moving::fix(alloc, world, line, operands),
        Stop::Refix { line } => moving::refix(alloc, world, line, operands),
        Stop::Unfix { line } => Ok(moving::unfix(world, line, operands)),
        Stop::IsFixed { line } => Ok(moving::tell_fixed(world, line, operands)),
        Stop::View { to, line } => Ok(views::view(world, to, line, operands)),
        Stop::Wait { condition } => Ok(operations::wait(world, who, condition)),
        Stop::Signal { condition } => Ok(operations::signal(world, who, condition)),
        Stop::LoopTop => Ok(Some(Doing::Passes(None))),
        Stop::End => Ok(Some(Doing::Finishes)),
        Stop::Fail { cause, line } => Ok(Some(Doing::breaking(cause, line))),
    }
}

/// The output gets a text.
fn print(operands: Values) -> Option<Doing>
    ensures { result ≡ print_asks operands }
{
    match one(operands)? {
        Value::Str(text) => Some(Doing::Prints(text)),
        Value::Int(_) | Value::Bool(_) | Value::Ref(_) | Value::Nil => None,
    }
}

/// A global constant that there is gets its value.
fn define<W: Sees>(world: &W, index: u32, operands: Values) -> Option<Doing>
    ensures { result ≡ global_asks (W.sight world.now) index operands }
{
    let value = one(operands)?;
    if (index as usize) < world.constants() {
        Some(Doing::Defines { index, value })
    } else {
        None
    }
}
