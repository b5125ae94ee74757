//! Entries of a schedule and of a run.
use crate::value::{NodeNo, Oid, Pid};

/// A line of a schedule: so many turns of a process, or a move of an object's group to a node by the operator.
#[derive(Clone, Copy, PartialEq, Eq, Debug)]
pub enum Entry {
    Turn { p: Pid, times: u32 },
    Move { o: Oid, k: NodeNo },
}

/// One entry of a run: a turn of a process, or a move by the operator.
#[derive(Clone, Copy, PartialEq, Eq, Debug)]
pub enum RunEntry {
    TurnOf(Pid),
    MoveOf { o: Oid, k: NodeNo },
}

/// How a run ends: each process ended or failed, none can go on, or the budget is spent.
#[derive(Clone, Copy, PartialEq, Eq, Debug)]
pub enum RunEnd {
    Finished,
    Stuck,
    Spent,
}
