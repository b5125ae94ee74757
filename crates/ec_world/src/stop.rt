//! Stops, and what their actions do to activations.
use crate::class::{ClassNo, NameNo, VectorType, ViewedAs};
use crate::process::Cause;
use crate::value::{Oid, OpNo, Pid, Value, Values};

/// How two texts are to stand to each other.
#[derive(Clone, Copy, PartialEq, Eq, Debug)]
pub enum Order {
    Less,
    LessEqual,
    More,
    MoreEqual,
}

/// A stop, with the numbers that its action needs beside its operands, and the line on which the process fails there, where it
/// may fail.
#[derive(Clone, Copy)]
pub enum Stop {
    /// The start of an operation.
    Entry,
    /// An operation of an object is invoked, by its name. Operands: the object, and the arguments.
    Invoke { name: NameNo, line: u32 },
    /// A new object of a class. Operands: captured values, or arguments.
    New { class: ClassNo },
    /// The end of an operation. Operand: the result, where there is one; operation 0 of a class gives the object.
    Return { gives_self: bool },
    /// A new vector of a type. Operand: how many elements (0 to 16,384).
    NewVector { of: VectorType, line: u32 },
    /// An element. Operands: the vector, and the index (from 0).
    Get { line: u32 },
    /// An element gets a value. Operands: the vector, the index, and the value.
    Set { line: u32 },
    /// How many elements there are. Operand: the vector.
    Size { line: u32 },
    /// A text behind another. Operands: the texts (together at most 65,535 bytes).
    Concat { line: u32 },
    /// How many bytes there are. Operand: the text.
    Length,
    /// Whether two texts stand to each other in an order. Operands: the texts.
    Compare { order: Order },
    /// Some bytes of a text. Operands: the text, the place of the first of them (from 0), and how many.
    GetSlice { line: u32 },
    /// An Integer or a Boolean as a text. Operand: the value.
    AsString,
    /// Output. Operand: the text.
    Print,
    /// A global constant gets its value, by its place among these (from 0). Operand: the value.
    Global { index: u32 },
    /// The node of a number. Operand: the number (from 0).
    NodeAt { line: u32 },
    /// How many nodes there are.
    NodeCount,
    /// The group of the first object goes where the second one is. Operands: the objects.
    Move { line: u32 },
    /// The same, and the first object is fixed then.
    Fix { line: u32 },
    /// The same, also where the first object was fixed.
    Refix { line: u32 },
    /// An object is fixed no more. Operand: the object.
    Unfix { line: u32 },
    /// Whether an object is fixed. Operand: the object.
    IsFixed { line: u32 },
    /// An object is viewed as a type. Operand: the object.
    View { to: ViewedAs, line: u32 },
    /// The process waits for a condition of its own object, by its number from 0.
    Wait { condition: u32 },
    /// The process signals a condition of its own object, by its number from 0.
    Signal { condition: u32 },
    /// Before each turn of a loop.
    LoopTop,
    /// The end of a process.
    End,
    /// The process fails.
    Fail { cause: Cause, line: u32 },
}

/// The activation whose stop acts: its process, its depth from the bottom (from 0), its operation and its own object.
#[derive(Clone, Copy)]
pub struct Who {
    pub process: Pid,
    pub depth: u32,
    pub operation: OpNo,
    pub own: Oid,
}

/// Where a process waits for a monitor.
#[derive(Clone, Copy, PartialEq, Eq, Debug)]
pub enum Queue {
    /// In the entry queue.
    ForEntry,
    /// In the queue of a condition.
    ForCondition,
    /// On the stack of those that have signalled.
    Urgently,
}

/// What an action does to the activations of its process.
#[derive(Drop)]
pub enum Effect {
    /// The action is done, with its result where it has one.
    GoesOn(Option<Value>),
    /// The action is done so far, and a new activation lies on top.
    Calls { op: OpNo, own: Oid, args: Values },
    /// The activation goes, and its result is the one below's.
    Leaves(Option<Value>),
    /// The action is done, and the process waits for the monitor of an object.
    Blocks { queue: Queue, own: Oid },
    /// The activation goes, and the process has ended.
    Ends,
    /// All activations go, and the process has failed.
    Fails { cause: Cause, line: u32 },
}
