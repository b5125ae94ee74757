//! What comes next in a run.
ghost use Rattle.std.specs.Prelude.{◌≡◌, [], ◌≤◌, ◌^◌, map, IfOk, OnErr};
ghost use Rattle.std.specs.List.{list_all};
ghost use Rattle.ec_world.specs.Run.{first_true, is_over, is_ready, next_ready_of};
ghost use Rattle.ec_report.specs.Driver.{AreTooMany, IsOnWay, OfStatuses};
ghost use Rattle.ec_report.specs.Progress.{IsStep};

use crate::driver::Driver;
use crate::processes::{is_over, is_ready};
use ec_world::run::{RunEnd, RunEntry};
use ec_world::value::Pid;
use std::alloc::AllocError;

/// What comes next in a run: its end, or an entry.
#[derive(Clone, Copy)]
pub enum Step {
    Stops(RunEnd),
    Does(RunEntry),
}

/// What comes next once the schedule is used up, by the statuses of the processes, the budget, the entries done and the last turn. The
/// error is 2^32 processes or more.
pub(crate) fn robin_step<S, D: Driver<S>>(
    driver: &D,
    state: &S,
    budget: u64,
    done: u64,
    last: Option<Pid>,
) -> Result<Step, AllocError>
    requires { IsOnWay (D.Stands driver.now) (D.FindsFull driver.now) state.now }
    ensures step { IfOk result (λ step. OfStatuses (D.Stands driver.now) (D.FindsFull driver.now) state.now
        (λ statuses. IsStep statuses budget (record { left = []; last = last; done = done }) step)) }
    ensures many { OnErr result (AreTooMany (D.Stands driver.now) (D.FindsFull driver.now) state.now) }
{
    let Some(p) = next_ready(driver, state, last)? else {
        let are_over = are_over(driver, state)?;
        return Ok(Step::Stops(if are_over {
            RunEnd::Finished
        } else {
            RunEnd::Stuck
        }));
    };
    if done >= budget {
        return Ok(Step::Stops(RunEnd::Spent));
    }
    Ok(Step::Does(RunEntry::TurnOf(p)))
}

/// The next process to have a turn: the least Ready one above that of the last turn, else the least Ready one. The error is
/// 2^32 processes or more.
fn next_ready<S, D: Driver<S>>(
    driver: &D,
    state: &S,
    last: Option<Pid>,
) -> Result<Option<Pid>, AllocError>
    requires { IsOnWay (D.Stands driver.now) (D.FindsFull driver.now) state.now }
    ensures next { IfOk result (λ next. OfStatuses (D.Stands driver.now) (D.FindsFull driver.now) state.now
        (λ statuses. next ≡ next_ready_of (map is_ready statuses) last)) }
    ensures many { OnErr result (AreTooMany (D.Stands driver.now) (D.FindsFull driver.now) state.now) }
{
    let Some(last) = last else {
        return first_ready(driver, state, 0);
    };
    match first_ready(driver, state, u64::from(last) + 1)? {
        Some(p) => Ok(Some(p)),
        None => first_ready(driver, state, 0),
    }
}

/// The least Ready process from one on. The error is 2^32 processes or more.
fn first_ready<S, D: Driver<S>>(driver: &D, state: &S, from: u64) -> Result<Option<Pid>, AllocError>
    requires way { IsOnWay (D.Stands driver.now) (D.FindsFull driver.now) state.now }
    requires few { from ≤ 2 ^ 32 }
    ensures first { IfOk result (λ first. OfStatuses (D.Stands driver.now) (D.FindsFull driver.now) state.now
        (λ statuses. first ≡ first_true from 0 (map is_ready statuses))) }
    ensures many { OnErr result (AreTooMany (D.Stands driver.now) (D.FindsFull driver.now) state.now) }
{
    for p in from..1 << 32 {
        let p = p as Pid;
        match driver.status(state, p) {
            None => return Ok(None),
            Some(status) => if is_ready(status) {
                return Ok(Some(p));
            },
        }
    }
    match driver.status(state, Pid::MAX) {
        None => Ok(None),
        Some(_) => Err(AllocError),
    }
}

/// Whether each process has ended or failed. The error is 2^32 processes or more.
fn are_over<S, D: Driver<S>>(driver: &D, state: &S) -> Result<bool, AllocError>
    requires { IsOnWay (D.Stands driver.now) (D.FindsFull driver.now) state.now }
    ensures over { IfOk result (λ over. OfStatuses (D.Stands driver.now) (D.FindsFull driver.now) state.now
        (λ statuses. over ≡ list_all is_over statuses)) }
    ensures many { OnErr result (AreTooMany (D.Stands driver.now) (D.FindsFull driver.now) state.now) }
{
    for p in 0..u64::from(u32::MAX) + 1 {
        match driver.status(state, p as Pid) {
            None => return Ok(true),
            Some(status) => if !is_over(status) {
                return Ok(false);
            },
        }
    }
    Err(AllocError)
}
