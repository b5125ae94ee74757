//! The driver: entries are done up to the end of the run.
ghost use Rattle.std.specs.Prelude.{IfOk, List};
ghost use Rattle.ec_world.specs.declared.process.ProcStatus.{ProcStatus};
ghost use Rattle.ec_report.specs.Driver.{HasEnded, IsFullEnd};
ghost use Rattle.ec_report.specs.Progress.{at_start};

use crate::course::Course;
use crate::driver::{Driver, Refusal};
use crate::end::ReportEnd;
use crate::step::Step;
use ec_world::run::Entry;
use std::alloc::AllocError;

/// How many entries a run has done, and how it came to its end.
#[derive(Clone, Copy)]
pub struct Ended {
    pub done: u64,
    pub end: ReportEnd,
}

/// Does the entries of a schedule in order, and then round robin, up to the end of the run. The error is want of memory, or,
/// once the schedule is used up, 2^32 processes or more. A scheduled entry reads no status, and round robin those of the processes that it
/// passes over.
pub fn drive<S, D: Driver<S>>(
    driver: &D,
    state: &mut S,
    schedule: &[Entry],
    budget: u64,
) -> Result<Ended, AllocError>
    requires starts { (statuses : List ProcStatus)
        × D.Stands driver.now state.old schedule.now budget statuses (at_start schedule.now) state.old }
    ensures { IfOk result
        (λ ended. HasEnded (D.Stands driver.now) (D.FindsFull driver.now) state.old schedule.now budget ended.done ended.end state.new) }
{
    let mut course = Course::new(schedule);
    'entries: loop {
        match course.next(driver, &*state, budget)? {
            Step::Stops(how) => {
                let end = ReportEnd::Ends(how);
                return Ok(Ended {
                    done: course.done(),
                    end,
                });
            }
            Step::Does(entry) => match driver.does(state, entry) {
                Ok(()) => course.advance(entry),
                Err(refusal) => {
                    let end = full_end(refusal)?;
                    return Ok(Ended {
                        done: course.done(),
                        end,
                    });
                }
            },
        }
    }
}

/// The end of a run whose next entry was refused as a node was full. The error is want of memory.
fn full_end(refusal: Refusal) -> Result<ReportEnd, AllocError>
    ensures { IfOk result (λ end. IsFullEnd refusal end) }
{
    match refusal {
        Refusal::Full {
            node,
            part,
            need,
            free,
        } => Ok(ReportEnd::IsFull {
            node,
            part,
            need,
            free,
        }),
        Refusal::Memory => Err(AllocError),
    }
}
