//! Stops as text.
use ec_world::stop::{Order, Stop};
use std::alloc::{AllocError, Global};

fn order_text(order: Order) -> &'static str {
    match order {
        Order::Less => "<",
        Order::LessEqual => "<=",
        Order::More => ">",
        Order::MoreEqual => ">=",
    }
}

/// What a stop is, with its numbers and, where it may fail, its line.
pub fn stop_text(alloc: Global, stop: Stop) -> Result<String, AllocError> {
    match stop {
        Stop::Entry => format!(in alloc; "entry"),
        Stop::Invoke { name, line } => format!(in alloc; "invoke {name} at {line}:"),
        Stop::New { class } => format!(in alloc; "new {class:?}:"),
        Stop::Return { gives_self: false } => format!(in alloc; "return"),
        Stop::Return { gives_self: true } => format!(in alloc; "return self"),
        Stop::NewVector { of, line } => format!(in alloc;
            "new vector {} {:?} at {line}:",
            of.inner, of.of
        ),
        Stop::Get { line } => format!(in alloc; "get at {line}:"),
        Stop::Set { line } => format!(in alloc; "set at {line}:"),
        Stop::Size { line } => format!(in alloc; "size at {line}:"),
        Stop::Concat { line } => format!(in alloc; "concat at {line}:"),
        Stop::Length => format!(in alloc; "length:"),
        Stop::Compare { order } => format!(in alloc; "compare {}:", order_text(order)),
        Stop::GetSlice { line } => format!(in alloc; "slice at {line}:"),
        Stop::AsString => format!(in alloc; "as text:"),
        Stop::Print => format!(in alloc; "print:"),
        Stop::Global { index } => format!(in alloc; "constant {index}:"),
        Stop::NodeAt { line } => format!(in alloc; "node at {line}:"),
        Stop::NodeCount => format!(in alloc; "node count:"),
        Stop::Move { line } => format!(in alloc; "move at {line}:"),
        Stop::Fix { line } => format!(in alloc; "fix at {line}:"),
        Stop::Refix { line } => format!(in alloc; "refix at {line}:"),
        Stop::Unfix { line } => format!(in alloc; "unfix at {line}:"),
        Stop::IsFixed { line } => format!(in alloc; "is fixed at {line}:"),
        Stop::View { to, line } => format!(in alloc; "view {to:?} at {line}:"),
        Stop::Wait { condition } => format!(in alloc; "wait {condition}"),
        Stop::Signal { condition } => format!(in alloc; "signal {condition}"),
        Stop::LoopTop => format!(in alloc; "loop top"),
        Stop::End => format!(in alloc; "end"),
        Stop::Fail { cause, line } => format!(in alloc; "fail {cause:?} at {line}"),
    }
}
