//! How far a run is along its schedule.
ghost use Rattle.std.specs.Prelude.{◌≡◌, ◌+◌, ◌-◌, ◌<◌, ◌^◌, IfOk, OnErr};
ghost use Rattle.ec_world.specs.Run.{expanded, last_of, tail_of};
ghost use Rattle.ec_report.specs.Driver.{AreTooMany, IsOnWay, OfStatuses};
ghost use Rattle.ec_report.specs.Progress.{IsStep, advanced, at_start};
ghost use Rattle.ec_report.specs.Lines.{HasLeft, begins_empty, entry_count, entry_of, first_of, left_of};

use crate::driver::Driver;
use crate::step::{Step, robin_step};
use ec_world::run::{Entry, RunEnd, RunEntry};
use ec_world::value::Pid;
use std::alloc::AllocError;
use std::marker::Model;

/// How far a run is along its schedule. A line of many turns takes no memory: its entries are counted.
#[derive(Drop)]
pub struct Course<'a> {
    /// The lines that aren't done, of the first of which one entry is left at least.
    lines: &'a [Entry],
    /// How many entries of the first line are done.
    of_first: u32,
    /// The process of the last turn.
    last: Option<Pid>,
    /// How many entries are done.
    done: u64,
}

impl<'a> Model for Course<'a> {
    ghost use Rattle.ec_report.specs.Progress.{Progress};
    ghost use Rattle.ec_report.specs.Lines.{HasLeft, left_of};

    ghost Value = { Progress };

    ghost view = { λ c. record { left = left_of c.lines.now c.of_first; last = c.last; done = c.done } };

    ghost invariant = { λ c. HasLeft c.lines.now c.of_first };
}

impl<'a> Course<'a> {
    /// The start of a schedule.
    pub fn new(schedule: &'a [Entry]) -> Course<'a>
        ensures { result ≡ at_start schedule.now }
    {
        Course {
            lines: without_empty(schedule),
            of_first: 0,
            last: None,
            done: 0,
        }
    }

    /// How many entries are done.
    pub fn done(&self) -> u64
        ensures { result ≡ self.now.done }
    {
        self.done
    }

    /// What comes next in a run that is driven: the schedule's next entry while there is one, and then round robin's. The error is
    /// 2^32 processes or more, where the turn is round robin's.
    pub fn next<S, D: Driver<S>>(
        &self,
        driver: &D,
        state: &S,
        budget: u64,
    ) -> Result<Step, AllocError>
        requires { IsOnWay (D.Stands driver.now) (D.FindsFull driver.now) state.now }
        ensures step { IfOk result (λ step. OfStatuses (D.Stands driver.now) (D.FindsFull driver.now) state.now
            (λ statuses. IsStep statuses budget self.now step)) }
        ensures many { OnErr result (AreTooMany (D.Stands driver.now) (D.FindsFull driver.now) state.now) }
    {
        let Some(entry) = first_entry(self.lines, self.of_first) else {
            return robin_step(driver, state, budget, self.done, self.last);
        };
        if self.done >= budget {
            return Ok(Step::Stops(RunEnd::Spent));
        }
        Ok(Step::Does(entry))
    }

    /// One entry further.
    pub fn advance(&mut self, entry: RunEntry)
        requires { self.old.done < 2 ^ 64 - 1 }
        ensures { self.new ≡ advanced self.old entry }
    {
        let (lines, of_first) = behind_first(self.lines, self.of_first);
        self.lines = lines;
        self.of_first = of_first;
        self.last = last_turn(entry, self.last);
        self.done += 1;
    }
}

/// The process of the last turn after an entry.
fn last_turn(entry: RunEntry, last: Option<Pid>) -> Option<Pid>
    ensures { result ≡ last_of entry last }
{
    match entry {
        RunEntry::TurnOf(p) => Some(p),
        RunEntry::MoveOf { .. } => last,
    }
}

/// The first entry that is left of some lines.
fn first_entry(lines: &[Entry], of_first: u32) -> Option<RunEntry>
    requires { HasLeft lines.now of_first }
    ensures { result ≡ first_of (left_of lines.now of_first) }
{
    let [first, ..] = lines else {
        return None;
    };
    Some(entry_of(*first))
}

/// What is left of some lines behind their first entry.
fn behind_first(lines: &[Entry], of_first: u32) -> (&[Entry], u32)
    requires { HasLeft lines.now of_first }
    ensures left { left_of result.0.now result.1 ≡ tail_of (left_of lines.now of_first) }
    ensures has { HasLeft result.0.now result.1 }
{
    let [first, rest @ ..] = lines else {
        return (lines, 0);
    };
    let count = entry_count(*first);
    if of_first + 1 < count {
        (lines, of_first + 1)
    } else {
        (without_empty(rest), 0)
    }
}

/// Lines without the first ones that stand for no entry.
fn without_empty(lines: &[Entry]) -> &[Entry]
    ensures same { expanded result.now ≡ expanded lines.now }
    ensures has { HasLeft result.now 0 }
{
    let mut rest = lines;
    'empty: while begins_empty(rest) {
        rest = &rest[1..];
    }
    rest
}

/// Whether the first line stands for no entry.
fn begins_empty(lines: &[Entry]) -> bool
    ensures { result ≡ begins_empty lines.now }
{
    match lines {
        [first, ..] => entry_count(*first) == 0,
        [] => false,
    }
}

/// How many entries a line stands for.
fn entry_count(line: Entry) -> u32
    ensures { result ≡ entry_count line }
{
    match line {
        Entry::Turn { times, .. } => times,
        Entry::Move { .. } => 1,
    }
}

/// Each entry of a line.
fn entry_of(line: Entry) -> RunEntry
    ensures { result ≡ entry_of line }
{
    match line {
        Entry::Turn { p, .. } => RunEntry::TurnOf(p),
        Entry::Move { o, k } => RunEntry::MoveOf { o, k },
    }
}
