//! What becomes of processes once an action is done.
ghost use Rattle.std.specs.Prelude.{◌≡◌, ◌++◌, List, IfOk, OnOk, ℕ, map, reverse, slice_get};
ghost use Rattle.ec_world.specs.Outcomes.{all_granted};
ghost use Rattle.ec_world.specs.World.{all_readied, begun_for, given_up, readied};

use crate::activation::Activation;
use crate::doing::Section;
use crate::entering::drop_each;
use crate::object::ObjectRec;
use crate::process::{Proc, ProcStatus};
use crate::stop::Effect;
use crate::value::{Oids, Pid, number_of};
use ec_base::list::Seq;
use ec_monitors::record::Granted;
use std::alloc::{AllocError, Global};

/// A process that fails gives up the monitors that it holds, that of its innermost activation first: whom this grants one.
/// An error is want of memory.
pub(crate) fn give_up<A: Activation>(
    alloc: Global,
    p: Pid,
    effect: &Effect,
    activations: &Seq<A>,
    objects: &mut Seq<ObjectRec>,
) -> Result<Seq<Pid>, AllocError>
    ensures { IfOk result
        (λ freed. given_up p (reverse (map A.meaning.own activations.now)) effect.now objects.old ≡ (objects.new, freed)) }
{
    match effect {
        Effect::Fails { .. } => {
            let owns = owns_of(alloc, activations)?;
            drop_each(alloc, p, owns.as_slice(), objects)
        }
        Effect::GoesOn(_)
        | Effect::Calls { .. }
        | Effect::Leaves(_)
        | Effect::Blocks { .. }
        | Effect::Ends => { Ok(Seq::new(alloc)) }
    }
}

/// The objects of activations, that of the innermost one first. An error is want of memory.
fn owns_of<A: Activation>(alloc: Global, activations: &Seq<A>) -> Result<Oids, AllocError>
    ensures { IfOk result (λ owns. owns ≡ reverse (map A.meaning.own activations.now)) }
{
    let mut owns = Seq::new(alloc);
    let count = activations.len();
    for i in 0..count {
        owns.push(activations.at(count - 1 - i).own())?;
    }
    Ok(owns)
}

/// The process that was granted a monitor is Ready, if any.
pub(crate) fn ready_granted<A: Activation>(processes: &mut Seq<Proc<A>>, granted: Option<Granted>)
    ensures { (more : List ℕ) → all_readied processes.old (all_granted granted more) ≡ all_readied processes.new more }
{
    match granted {
        Some(granted) => ready(processes, granted.process),
        None => {}
    }
}

/// Those that were granted a monitor are Ready.
pub(crate) fn ready_each<A: Activation>(processes: &mut Seq<Proc<A>>, granted: &[Pid])
    ensures { processes.new ≡ all_readied processes.old granted.now }
{
    for q in granted {
        ready(processes, *q);
    }
}

/// A process is Ready, where it is there.
fn ready<A: Activation>(processes: &mut Seq<Proc<A>>, q: Pid)
    ensures { processes.new ≡ readied processes.old q (slice_get processes.old q) }
{
    if (q as usize) < processes.len() {
        processes.at_mut(q as usize).status = ProcStatus::Ready;
    }
}

/// A new process, behind the others, about to run a process section, if any. An error is want of memory, or more processes than
/// 32 bits number.
pub(crate) fn begin<A: Activation>(
    alloc: Global,
    processes: &mut Seq<Proc<A>>,
    started: Option<Section>,
) -> Result<(), AllocError>
    ensures { OnOk result (processes.new ≡ processes.old ++ begun_for A.meaning started) }
{
    let Some(section) = started else {
        return Ok(());
    };
    let mut activations = Seq::new(alloc);
    activations.push(A::begin(alloc, section.operation, section.own, Seq::new(alloc))?)?;
    processes.push(Proc {
        activations,
        status: ProcStatus::Ready,
    })?;
    number_of(processes.len())?;
    Ok(())
}
