//! Worlds.
ghost use Rattle.std.specs.Prelude.{◌≡◌, OnOk, IfSome, IfNone, IsSome, Some};
ghost use Rattle.ec_base.specs.Stack.{top_of};
ghost use Rattle.ec_world.specs.World.{Action, IsPending, acted_at, stack_at};

use crate::activation::Activation;
use crate::common::Common;
use crate::doing::Outcome;
use crate::doings;
use crate::granting::{begin, give_up, ready_each, ready_granted};
use crate::process::{Proc, ProcStatus};
use crate::stop::Who;
use crate::value::{Pid, number_of};
use ec_base::list::Seq;
use std::alloc::{AllocError, Global};

/// A world: all processes share one.
#[derive(Drop)]
pub struct World<A: Activation> {
    pub common: Common,
    pub processes: Seq<Proc<A>>,
}

impl<A: Activation> World<A> {
    /// The action of the stop at which a process rests. An error is want of memory, or a table of numbers of 32 bits that
    /// is full: the depth of the top activation has more bits, or the number of a new object, of a new process or of a group's
    /// member would have, or the depth at which a process holds a monitor; or a count of bytes, elements or nodes is above
    /// 2,147,483,647, so that no Integer is that count. Nothing is said of the world after an error.
    ///
    /// Nothing changes where no process has that number or it isn't Ready, where the action is done already, and where the
    /// table of actions has no case for the stop with its operands.
    pub fn act(&mut self, p: Pid) -> Result<(), AllocError>
        ensures { OnOk result (self.new ≡ Action A.meaning self.old p) }
    {
        let alloc = self.processes.allocator();
        let Some(activations) = self.pending(p) else {
            return Ok(());
        };
        let top = activations.last();
        let who = Who {
            process: p,
            depth: number_of(activations.len() - 1)?,
            operation: top.operation(),
            own: top.own(),
        };
        let stop = top.stop();
        let operands = top.operands()?;
        let Some(doing) = doings::doing(alloc, &self.common, who, stop, operands)? else {
            return Ok(());
        };
        let outcome = self.common.done(alloc, who, doing)?;
        self.settle(alloc, p, outcome)
    }

    /// What becomes of processes once the action of one is done. An error is want of memory, or more processes than 32 bits number.
    fn settle(&mut self, alloc: Global, p: Pid, outcome: Outcome) -> Result<(), AllocError>
        requires { IsSome (top_of (stack_at self.old p)) }
        ensures { OnOk result (self.new ≡ acted_at A.meaning self.old p (Some (self.old.common, outcome))) }
    {
        let Outcome {
            effect,
            granted,
            started,
        } = outcome;
        let activations = &self.processes.at(p as usize).activations;
        let freed = give_up(alloc, p, &effect, activations, &mut self.common.objects)?;
        let process = self.processes.at_mut(p as usize);
        process.take_effect(alloc, effect)?;
        ready_granted(&mut self.processes, granted);
        ready_each(&mut self.processes, freed.as_slice());
        begin(alloc, &mut self.processes, started)
    }

    /// The activations of a process that is Ready, where the action of the last one's stop is pending.
    fn pending(&self, p: Pid) -> Option<&Seq<A>>
        ensures some { IfSome result (λ activations. IsPending A.meaning self.now p × (activations.now ≡ stack_at self.now p)) }
        ensures none { IfNone result (Action A.meaning self.now p ≡ self.now) }
    {
        let process = self.processes.get(p as usize)?;
        if process.status != ProcStatus::Ready || process.activations.len() == 0 {
            return None;
        }
        if process.activations.last().is_pending() {
            Some(&process.activations)
        } else {
            None
        }
    }
}
