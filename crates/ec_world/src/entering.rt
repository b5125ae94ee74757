//! What actions do to monitors (Hoare 1974, "Monitors: an operating system structuring concept").
ghost use Rattle.std.specs.Prelude.{◌≡◌, ◌++◌, [], IfOk, OnOk};
ghost use Rattle.ec_world.specs.Outcomes as spec;

use crate::common::Common;
use crate::doing::{Outcome, Section};
use crate::object::{HolderAct, ObjectRec, act_at, enter_at};
use crate::stop::{Effect, Queue, Who};
use crate::value::{Oid, OpNo, Pid, Value};
use ec_base::list::Seq;
use ec_monitors::record::{Entry, Granted};
use std::alloc::{AllocError, Global};

impl Common {
    /// A process enters the monitor of its own object, or waits to. An error is want of memory, or a depth of more than 32 bits.
    #[tactic(auto, using(crate::proofs::Holding::entry_by))]
    pub(crate) fn enter(&mut self, who: Who) -> Result<Outcome, AllocError>
        ensures { IfOk result (λ o. spec.entry_done self.old who (spec.monitor_of self.old who.own) ≡ (self.new, o)) }
    {
        match enter_at(&mut self.objects, who.own, who.process)? {
            Some(Entry::Queued) => Ok(Outcome::only(Effect::Blocks {
                queue: Queue::ForEntry,
                own: who.own,
            })),
            Some(Entry::Entered) | None => Ok(Outcome::goes_on()),
        }
    }

    /// A process waits for a condition of its own object.
    pub(crate) fn wait(&mut self, who: Who, condition: u32) -> Outcome
        ensures { spec.wait_done self.old who condition (spec.monitor_of self.old who.own) ≡ (self.new, result) }
    {
        let act = HolderAct::Wait(condition);
        match act_at(&mut self.objects, who.own, who.process, act) {
            Some(granted) => Outcome {
                effect: Effect::Blocks {
                    queue: Queue::ForCondition,
                    own: who.own,
                },
                granted,
                started: None,
            },
            None => Outcome::goes_on(),
        }
    }

    /// A process signals a condition of its own object. It blocks where somebody waited for it.
    #[tactic(auto, using(crate::proofs::Holding::signal_by))]
    pub(crate) fn signal(&mut self, who: Who, condition: u32) -> Outcome
        ensures { spec.signal_done self.old who condition (spec.monitor_of self.old who.own) ≡ (self.new, result) }
    {
        let act = HolderAct::Signal(condition);
        match act_at(&mut self.objects, who.own, who.process, act) {
            Some(Some(granted)) => Outcome {
                effect: Effect::Blocks {
                    queue: Queue::Urgently,
                    own: who.own,
                },
                granted: Some(granted),
                started: None,
            },
            Some(None) | None => Outcome::goes_on(),
        }
    }

    /// An activation goes, out of the monitor of its own object where it had entered it.
    #[tactic(auto, using(crate::proofs::Holding::leave_by))]
    pub(crate) fn leave(
        &mut self,
        who: Who,
        given: Option<Value>,
        leaves: bool,
        section: Option<OpNo>,
    ) -> Outcome
        ensures { spec.return_done self.old who given leaves (spec.section_on who.own section) ≡ (self.new, result) }
    {
        let started = section_on(who.own, section);
        if !leaves {
            return Outcome {
                effect: Effect::Leaves(given),
                granted: None,
                started,
            };
        }
        let granted = match act_at(&mut self.objects, who.own, who.process, HolderAct::Leave) {
            Some(granted) => granted,
            None => None,
        };
        Outcome {
            effect: Effect::Leaves(given),
            granted,
            started,
        }
    }
}

/// The section with which a new process begins.
fn section_on(own: Oid, section: Option<OpNo>) -> Option<Section>
    ensures { result ≡ spec.section_on own section }
{
    let operation = section?;
    Some(Section { operation, own })
}

/// The monitors of these objects that a process holds are given up, one after the other: whom this grants one. An error is want of
/// memory.
pub(crate) fn drop_each(
    alloc: Global,
    p: Pid,
    owns: &[Oid],
    objects: &mut Seq<ObjectRec>,
) -> Result<Seq<Pid>, AllocError>
    ensures { IfOk result (λ freed. spec.dropped_each p owns.now objects.old ≡ (objects.new, freed)) }
{
    let mut freed = Seq::new(alloc);
    for own in owns {
        let granted = drop_at(objects, p, *own);
        push_granted(&mut freed, granted)?;
    }
    Ok(freed)
}

/// The monitor of an object, where a process holds it, is given up whole.
fn drop_at(objects: &mut Seq<ObjectRec>, p: Pid, oid: Oid) -> Option<Granted>
    ensures { spec.dropped_at objects.old p oid ≡ (objects.new, result) }
{
    match act_at(objects, oid, p, HolderAct::DropAll) {
        Some(granted) => granted,
        None => None,
    }
}

/// One more process that was granted a monitor, if any. An error is want of memory.
fn push_granted(freed: &mut Seq<Pid>, granted: Option<Granted>) -> Result<(), AllocError>
    ensures { OnOk result (freed.new ≡ freed.old ++ spec.all_granted granted []) }
{
    match granted {
        Some(granted) => freed.push(granted.process),
        None => Ok(()),
    }
}
