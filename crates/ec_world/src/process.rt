//! Processes.
ghost use Rattle.std.specs.Prelude.{◌≡◌, OnOk, IsSome, Some};
ghost use Rattle.ec_base.specs.Stack.{top_of, below_of};
ghost use Rattle.ec_world.specs.World as spec;
ghost use Rattle.ec_world.specs.World.{changed_at, finish_top};

use crate::activation::Activation;
use crate::stop::{Effect, Queue};
use crate::value::{Oid, Value};
use ec_base::list::Seq;
use std::alloc::{AllocError, Global};

/// Why a process fails.
#[derive(Clone, Copy, PartialEq, Eq, Debug)]
pub enum Cause {
    /// Nil is the receiver of an invocation, a vector, or an operand of a move or its kin.
    Nil,
    /// A divisor is 0.
    ZeroDivisor,
    /// What is asserted is false.
    FalseAssertion,
    /// An index or a slice is out of range.
    OutOfRange,
    /// An object is viewed as a type to which its class doesn't conform.
    NotConforming,
    /// A member of a group is fixed that is to be fixed elsewhere.
    GroupFixed,
    /// A vector is to have fewer than 0 or more than 16,384 elements.
    VectorSize,
    /// No node has the number.
    NoSuchNode,
    /// A text would have more than 65,535 bytes.
    LongText,
    /// A node is to be unfixed or fixed elsewhere.
    NodeFixed,
}

/// What a process may do. A blocked one names the object whose monitor it waits for.
#[derive(Clone, Copy, PartialEq, Eq, Debug)]
pub enum ProcStatus {
    Ready,
    Entry(Oid),
    Cond(Oid),
    Urgent(Oid),
    Ended,
    Failed { cause: Cause, line: u32 },
}

/// A process: its activations, bottom first, and its status.
#[derive(Drop)]
pub struct Proc<A> {
    pub activations: Seq<A>,
    pub status: ProcStatus,
}

impl<A: Activation> Proc<A> {
    /// What an action does to the activations of a process that is Ready.
    pub(crate) fn take_effect(&mut self, alloc: Global, effect: Effect) -> Result<(), AllocError>
        requires ready { self.old.status ≡ ProcStatus.Ready }
        requires some { IsSome (top_of self.old.activations) }
        ensures { OnOk result (Some self.new ≡ changed_at A.meaning (below_of self.old.activations) (top_of self.old.activations) effect) }
    {
        match effect {
            Effect::GoesOn(given) => finish_last(&mut self.activations, given),
            Effect::Calls { op, own, args } => {
                finish_last(&mut self.activations, None)?;
                self.activations.push(A::begin(alloc, op, own, args)?)
            }
            Effect::Leaves(given) => {
                let _ = self.activations.pop();
                finish_last(&mut self.activations, given)
            }
            Effect::Blocks { queue, own } => {
                finish_last(&mut self.activations, None)?;
                self.status = waiting(queue, own);
                Ok(())
            }
            Effect::Ends => {
                self.activations = Seq::new(alloc);
                self.status = ProcStatus::Ended;
                Ok(())
            }
            Effect::Fails { cause, line } => {
                self.activations = Seq::new(alloc);
                self.status = ProcStatus::Failed { cause, line };
                Ok(())
            }
        }
    }
}

/// Where a process waits for the monitor of an object.
fn waiting(queue: Queue, oid: Oid) -> ProcStatus
    ensures { result ≡ spec.waiting queue oid }
{
    match queue {
        Queue::ForEntry => ProcStatus::Entry(oid),
        Queue::ForCondition => ProcStatus::Cond(oid),
        Queue::Urgently => ProcStatus::Urgent(oid),
    }
}

/// The last activation has its action done.
fn finish_last<A: Activation>(
    activations: &mut Seq<A>,
    given: Option<Value>,
) -> Result<(), AllocError>
    ensures { OnOk result (activations.new ≡ finish_top A.meaning (below_of activations.old) (top_of activations.old) given) }
{
    match activations.pop() {
        Some(top) => {
            let mut top = top;
            top.finish(given)?;
            activations.push(top)
        }
        None => Ok(()),
    }
}
