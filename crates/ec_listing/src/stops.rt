//! What stops do, and the line of the source on which one stands.
use crate::names::{put_class, put_invoked};
use ec_meaning::source::Program;
use ec_report::lines::cause_number;
use ec_world::class::ClassNo;
use ec_world::stop::{Order, Stop};
use std::alloc::{AllocError, Global};
use std::fmt::Write;

/// Writes what a stop does, with the name or the number that belongs to it: `invoke sum`, `make main`, `constant 0`.
pub fn put_stop(
    alloc: Global,
    program: &Program<'_>,
    stop: Stop,
    out: &mut String,
) -> Result<(), AllocError> {
    out.push_str(doing(stop))?;
    match stop {
        Stop::Invoke { name, .. } => {
            out.push(' ')?;
            put_invoked(program, name, out)
        }
        Stop::New { class } => {
            out.push(' ')?;
            put_class(alloc, program, class, out)
        }
        Stop::NewVector { of, .. } => {
            out.push(' ')?;
            put_class(alloc, program, ClassNo::Vector(of), out)
        }
        Stop::Global { index } => write!(out, " {index}"),
        Stop::Wait { condition } | Stop::Signal { condition } => write!(out, " {condition}"),
        Stop::Fail { cause, .. } => write!(out, " by F{}", cause_number(cause)),
        _ => Ok(()),
    }
}

/// What a stop does, without what belongs to it.
fn doing(stop: Stop) -> &'static str {
    match stop {
        Stop::Entry => "begin",
        Stop::Invoke { .. } => "invoke",
        Stop::New { .. } | Stop::NewVector { .. } => "make",
        Stop::Return { .. } => "return",
        Stop::Get { .. } => "get element",
        Stop::Set { .. } => "set element",
        Stop::Size { .. } => "size",
        Stop::Concat { .. } => "join",
        Stop::Length => "length",
        Stop::Compare { order } => comparing(order),
        Stop::GetSlice { .. } => "slice",
        Stop::AsString => "as string",
        Stop::Print => "print",
        Stop::Global { .. } => "constant",
        Stop::NodeAt { .. } => "node at",
        Stop::NodeCount => "count nodes",
        Stop::Move { .. } => "move",
        Stop::Fix { .. } => "fix",
        Stop::Refix { .. } => "refix",
        Stop::Unfix { .. } => "unfix",
        Stop::IsFixed { .. } => "is fixed",
        Stop::View { .. } => "view",
        Stop::Wait { .. } => "wait for condition",
        Stop::Signal { .. } => "signal condition",
        Stop::LoopTop => "loop",
        Stop::End => "end",
        Stop::Fail { .. } => "fail",
    }
}

/// Two texts are compared.
fn comparing(order: Order) -> &'static str {
    match order {
        Order::Less => "compare <",
        Order::LessEqual => "compare <=",
        Order::More => "compare >",
        Order::MoreEqual => "compare >=",
    }
}

/// The line on which a process fails at a stop, where it may fail there. Other stops have none.
pub fn line_of(stop: Stop) -> Option<u32> {
    match stop {
        Stop::Invoke { line, .. }
        | Stop::NewVector { line, .. }
        | Stop::Get { line }
        | Stop::Set { line }
        | Stop::Size { line }
        | Stop::Concat { line }
        | Stop::GetSlice { line }
        | Stop::NodeAt { line }
        | Stop::Move { line }
        | Stop::Fix { line }
        | Stop::Refix { line }
        | Stop::Unfix { line }
        | Stop::IsFixed { line }
        | Stop::View { line, .. }
        | Stop::Fail { line, .. } => Some(line),
        Stop::Entry
        | Stop::New { .. }
        | Stop::Return { .. }
        | Stop::Length
        | Stop::Compare { .. }
        | Stop::AsString
        | Stop::Print
        | Stop::Global { .. }
        | Stop::NodeCount
        | Stop::Wait { .. }
        | Stop::Signal { .. }
        | Stop::LoopTop
        | Stop::End => None,
    }
}
