//! A world with the code of its activations, turn by turn.
ghost use Rattle.std.specs.Prelude.{◌≡◌, IfOk, OnOk};
ghost use Rattle.ec_base.specs.Stack.{top_of};
ghost use Rattle.ec_world.specs.Turning.{advanced_top, is_done_top};
ghost use Rattle.ec_world.specs.Moves.{OperatorMove};
ghost use Rattle.ec_world.specs.World.{GoOn, Turn, stack_at, stack_if_ready};

use crate::activation::Activation;
use crate::common::Common;
use crate::event::Event;
use crate::group::group;
use crate::process::{Proc, ProcStatus};
use crate::silent::Silent;
use crate::value::{NodeNo, Oid, Pid};
use crate::world::World;
use ec_base::list::Seq;
use std::alloc::{AllocError, Global};
use std::mem::replace;

/// The code of activations, and the world that it has made so far.
#[derive(Drop)]
pub struct Running<A: Activation, S: Silent<A>> {
    pub code: S,
    pub world: World<A>,
}

impl<A: Activation, S: Silent<A>> Running<A, S> {
    /// One turn of a process: the action of the stop at which it rests, and the silent steps behind it up to the next stop.
    /// Nothing is done where the process isn't there or isn't Ready. The error is want of memory, or a number that has more bits
    /// than its table has; nothing is said of the world after an error.
    pub fn turn(&mut self, p: Pid) -> Result<(), AllocError>
        ensures code { self.new.code ≡ self.old.code }
        ensures world { OnOk result (self.new.world ≡ Turn A.meaning (S.steps self.old.code) self.old.world p) }
    {
        self.world.act(p)?;
        advance(&self.code, &mut self.world, p)
    }

    /// The operator moves the group of object `o` to node `k`; nothing is done where the object or the node isn't there, or where
    /// a member is fixed. The error is want of memory, or a member whose number has more than 32 bits.
    pub fn operator_move(&mut self, o: Oid, k: NodeNo) -> Result<(), AllocError>
        ensures code { self.new.code ≡ self.old.code }
        ensures world { OnOk result (self.new.world ≡ OperatorMove self.old.world o k) }
    {
        let members = group(&self.world, o)?;
        let common = &mut self.world.common;
        if common.object(o).is_none() || k >= common.nodes || common.any_fixed(&members) {
            return Ok(());
        }
        common.events.push(Event::Moved {
            members: Seq::from_vec(members),
            target: k + 1,
        })
    }
}

/// The code behind the stop of a process whose action is done, up to the next stop. The error is that of a step.
#[tactic(auto, using(crate::proofs::Advancing::goes, crate::proofs::Advancing::stays))]
fn advance<A: Activation, S: Silent<A>>(
    code: &S,
    world: &mut World<A>,
    p: Pid,
) -> Result<(), AllocError>
    ensures { OnOk result (world.new ≡ GoOn A.meaning (S.steps code.now) world.old p) }
{
    if !is_done(world, p) {
        return Ok(());
    }
    let nothing = no_common(world.processes.allocator());
    let common = replace(&mut world.common, nothing);
    let process = world.processes.at_mut(p as usize);
    world.common = advance_top(code, common, process)?;
    Ok(())
}

/// Whether a process is there and Ready with an activation on top whose action is done.
fn is_done<A: Activation>(world: &World<A>, p: Pid) -> bool
    ensures { result ≡ is_done_top A.meaning (top_of (stack_at world.now p)) }
{
    match world.processes.get(p as usize) {
        Some(process) => is_ready_done(process),
        None => false,
    }
}

fn is_ready_done<A: Activation>(process: &Proc<A>) -> bool
    ensures { result ≡ is_done_top A.meaning (top_of (stack_if_ready process.now.status process.now.activations)) }
{
    match process.status {
        ProcStatus::Ready => is_last_done(&process.activations),
        ProcStatus::Entry(_) | ProcStatus::Cond(_) | ProcStatus::Urgent(_) => false,
        ProcStatus::Ended | ProcStatus::Failed { .. } => false,
    }
}

fn is_last_done<A: Activation>(activations: &Seq<A>) -> bool
    ensures { result ≡ is_done_top A.meaning (top_of activations.now) }
{
    if activations.len() == 0 {
        return false;
    }
    !activations.last().is_pending()
}

/// The top activation of a process goes on, with what the world then has. The error is that of a step.
fn advance_top<A: Activation, S: Silent<A>>(
    code: &S,
    common: Common,
    process: &mut Proc<A>,
) -> Result<Common, AllocError>
    ensures { IfOk result
        (λ c. (c, process.new) ≡ advanced_top (S.steps code.now) common process.old (top_of process.old.activations)) }
{
    match process.activations.pop() {
        Some(top) => {
            let (common, top) = code.go_on(common, top)?;
            process.activations.push(top)?;
            Ok(common)
        }
        None => Ok(common),
    }
}

/// A world's common part, of nothing.
fn no_common(alloc: Global) -> Common {
    Common {
        nodes: 0,
        classes: Seq::new(alloc),
        objects: Seq::new(alloc),
        globals: Seq::new(alloc),
        output: Seq::new(alloc),
        events: Seq::new(alloc),
    }
}
