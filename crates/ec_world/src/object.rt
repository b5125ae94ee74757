//! What a world keeps of an object, and acts on its monitor.
ghost use Rattle.std.specs.Prelude.{◌≡◌, IfOk};
ghost use Rattle.ec_world.specs.Holding as spec;

use crate::class::ClassNo;
use crate::value::{Oid, Pid, Values};
use ec_base::list::Seq;
use ec_monitors::monitor::Monitor;
use ec_monitors::record::{Entry, Granted};
use std::alloc::AllocError;

/// An object: its class, its field values, whether it is fixed, and its monitor where it has one.
#[derive(Drop)]
pub struct ObjectRec {
    pub class: ClassNo,
    pub fields: Values,
    pub fixed: bool,
    pub monitor: Option<Monitor>,
}

/// What the holder of a monitor does to it: it returns, it waits for a condition or signals one, by its number from 0, or it is gone.
#[derive(Clone, Copy)]
pub(crate) enum HolderAct {
    Leave,
    Wait(u32),
    Signal(u32),
    DropAll,
}

/// A process enters the monitor of an object, or waits to. Nothing where the object isn't there or has none. An error is want of
/// memory, or a depth of more than 32 bits.
pub(crate) fn enter_at(
    objects: &mut Seq<ObjectRec>,
    oid: Oid,
    p: Pid,
) -> Result<Option<Entry>, AllocError>
    ensures { IfOk result (λ e. spec.at_number (spec.entry_of p) objects.old oid ≡ (objects.new, e)) }
{
    if oid == 0 || oid as usize > objects.len() {
        return Ok(None);
    }
    objects.at_mut(oid as usize - 1).enter(p)
}

/// A process acts on the monitor of an object, where it is its holder, and may grant it to another one. Nothing where the object
/// isn't there or has no monitor.
pub(crate) fn act_at(
    objects: &mut Seq<ObjectRec>,
    oid: Oid,
    p: Pid,
    act: HolderAct,
) -> Option<Option<Granted>>
    ensures { spec.at_number (spec.act_by p act) objects.old oid ≡ (objects.new, result) }
{
    if oid == 0 || oid as usize > objects.len() {
        return None;
    }
    objects.at_mut(oid as usize - 1).act(p, act)
}

impl ObjectRec {
    /// A process enters its monitor, or waits to.
    fn enter(&mut self, p: Pid) -> Result<Option<Entry>, AllocError>
        ensures { IfOk result (λ e. spec.on_object (spec.entry_of p) self.old ≡ (self.new, e)) }
    {
        let Some(monitor) = &mut self.monitor else {
            return Ok(None);
        };
        let entry = monitor.enter(p)?;
        Ok(Some(entry))
    }

    /// A process acts on its monitor.
    fn act(&mut self, p: Pid, act: HolderAct) -> Option<Option<Granted>>
        ensures { spec.on_object (spec.act_by p act) self.old ≡ (self.new, result) }
    {
        let Some(monitor) = &mut self.monitor else {
            return None;
        };
        Some(act.by(p, monitor))
    }
}

impl HolderAct {
    /// What a process does to a monitor, where it is its holder.
    fn by(self, p: Pid, monitor: &mut Monitor) -> Option<Granted>
        ensures { spec.act_by p self monitor.old ≡ (monitor.new, result) }
    {
        if !monitor.is_held_by(p) {
            return None;
        }
        match self {
            HolderAct::Leave => monitor.leave(p),
            HolderAct::Wait(condition) => {
                if (condition as usize) < monitor.conditions() {
                    monitor.wait(p, condition as usize)
                } else {
                    None
                }
            }
            HolderAct::Signal(condition) => {
                if (condition as usize) < monitor.conditions() {
                    monitor.signal(p, condition as usize)
                } else {
                    None
                }
            }
            HolderAct::DropAll => monitor.drop_all(p),
        }
    }
}
