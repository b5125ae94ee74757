//! Monitors with room for everybody within: only who comes takes memory.
ghost use Rattle.std.specs.Prelude.{◌≡◌, ◌<◌, length, replicate, [], Some, None, IfOk, IfSome, OnErr, IsTrue, ◌↔◌, true};

use crate::lists::{
    empty_queues, first_at, make_room, push_at, push_within, queue_of, queues_of, seqs_of,
    take_first, take_last, waits_as, waits_in, waits_in_any,
};
use crate::record::{Entry, Granted, Hold, MonitorRec};
use ec_base::list::Seq;
use std::alloc::{AllocError, Global};
use std::marker::Model;

/// A monitor in which every list has room for every process that holds or waits.
#[derive(Drop)]
pub struct Monitor {
    holder: Option<Hold>,
    entry: Vec<u32>,
    urgent: Vec<Hold>,
    conditions: Vec<Vec<Hold>>,
    /// How many processes each list has room for.
    room: usize,
}

impl Model for Monitor {
    ghost use Rattle.ec_monitors.specs.declared.record.MonitorRec.{MonitorRec};
    ghost use Rattle.ec_monitors.specs.Room.{HasRoom, queues};

    ghost Value = { MonitorRec };

    ghost view = { λ m.
        record { holder = m.holder; entry = m.entry.items; urgent = m.urgent.items; conditions = queues m.conditions.items } };

    ghost invariant = { λ m. HasRoom m.room m.holder m.entry m.urgent m.conditions.items };
}

impl Monitor {
    ghost use Rattle.ec_monitors.specs.Monitors.{made, released, entered, left, waited, signalled, dropped, is_held_by, depth_of};
    ghost use Rattle.ec_monitors.specs.Monitors.{waiting_for};
    ghost use Rattle.ec_monitors.specs.Standing.{WaitsNowhere};

    /// A free monitor with so many conditions.
    pub fn new(alloc: Global, conditions: usize) -> Result<Monitor, AllocError>
        ensures { IfOk result (λ m. m ≡ made (replicate conditions [])) }
    {
        Ok(Monitor {
            holder: None,
            entry: Vec::new(alloc),
            urgent: Vec::new(alloc),
            conditions: empty_queues(alloc, conditions)?,
            room: 0,
        })
    }

    /// The monitor that a record tells.
    pub fn from_record(alloc: Global, kept: &MonitorRec) -> Result<Monitor, AllocError>
        ensures { IfOk result (λ m. m ≡ kept.now) }
    {
        let mut entry = Vec::from_slice(alloc, kept.entry.as_slice())?;
        let mut urgent = Vec::from_slice(alloc, kept.urgent.as_slice())?;
        let mut conditions = queues_of(alloc, kept.conditions.as_slice())?;
        let room = make_room(&mut entry, &mut urgent, &mut conditions)?;
        Ok(Monitor {
            holder: kept.holder,
            entry,
            urgent,
            conditions,
            room,
        })
    }

    /// The record that tells it.
    pub fn to_record(&self, alloc: Global) -> Result<MonitorRec, AllocError>
        ensures { IfOk result (λ r. r ≡ self.now) }
    {
        Ok(MonitorRec {
            holder: self.holder,
            entry: Seq::from_vec(Vec::from_slice(alloc, self.entry.as_slice())?),
            urgent: Seq::from_vec(Vec::from_slice(alloc, self.urgent.as_slice())?),
            conditions: seqs_of(alloc, &self.conditions)?,
        })
    }

    /// Who holds it, and how deep.
    pub fn holder(&self) -> Option<Hold>
        ensures { result ≡ self.now.holder }
    {
        self.holder
    }

    /// How often a process has entered: 0 where it doesn't hold the monitor.
    pub fn depth_of(&self, p: u32) -> u32
        ensures { result ≡ depth_of self.now p }
    {
        match self.holder {
            Some(held) if held.process == p => held.depth,
            _ => 0,
        }
    }

    /// Whether a process holds it.
    pub fn is_held_by(&self, p: u32) -> bool
        ensures { result ≡ is_held_by self.now p }
    {
        match self.holder {
            Some(held) => held.process == p,
            None => false,
        }
    }

    /// How many conditions it has.
    pub fn conditions(&self) -> usize
        ensures { result ≡ length self.now.conditions }
    {
        self.conditions.len()
    }

    /// Who wants to enter, the first in front.
    pub fn entry(&self) -> &[u32]
        ensures { result.now ≡ self.now.entry }
    {
        self.entry.as_slice()
    }

    /// The signallers that wait to go on, the last of them at the end.
    pub fn urgent(&self) -> &[Hold]
        ensures { result.now ≡ self.now.urgent }
    {
        self.urgent.as_slice()
    }

    /// Who waits for a condition, the first in front.
    pub fn waiting_for(&self, c: usize) -> &[Hold]
        requires { c < length self.now.conditions }
        ensures { result.now ≡ waiting_for self.now c }
    {
        queue_of(&self.conditions, c)
    }

    /// Whether a process waits nowhere in it.
    pub fn waits_nowhere(&self, p: u32) -> bool
        ensures { IsTrue result ↔ WaitsNowhere self.now p }
    {
        if waits_as(&self.entry, p) || waits_in(&self.urgent, p) {
            return false;
        }
        !waits_in_any(&self.conditions, p)
    }

    /// A process enters, or goes to the end of the entry queue. An error is want of memory, or a depth that would have more
    /// than 32 bits; nothing changes then.
    pub fn enter(&mut self, p: u32) -> Result<Entry, AllocError>
        ensures ok { IfOk result (λ e. entered self.old p ≡ (self.new, e)) }
        ensures err { OnErr result (self.new ≡ self.old) }
    {
        let Some(held) = self.holder else {
            self.room = make_room(&mut self.entry, &mut self.urgent, &mut self.conditions)?;
            self.holder = Some(Hold {
                process: p,
                depth: 1,
            });
            return Ok(Entry::Entered);
        };
        if held.process == p {
            if held.depth == u32::MAX {
                return Err(AllocError);
            }
            self.holder = Some(Hold {
                process: p,
                depth: held.depth + 1,
            });
            return Ok(Entry::Entered);
        }
        self.room = make_room(&mut self.entry, &mut self.urgent, &mut self.conditions)?;
        push_within(&mut self.entry, p);
        Ok(Entry::Queued)
    }

    /// The holder leaves once.
    pub fn leave(&mut self, p: u32) -> Option<Granted>
        requires { is_held_by self.old p ≡ true }
        ensures { left self.old ≡ (self.new, result) }
    {
        if let Some(held) = self.holder {
            if held.depth > 1 {
                self.holder = Some(Hold {
                    process: held.process,
                    depth: held.depth - 1,
                });
                return None;
            }
            return self.release();
        }
        None
    }

    /// The holder waits for a condition.
    pub fn wait(&mut self, p: u32, c: usize) -> Option<Granted>
        requires holds { is_held_by self.old p ≡ true }
        requires there { c < length self.old.conditions }
        ensures { waited self.old c ≡ (self.new, result) }
    {
        if let Some(held) = self.holder {
            self.holder = None;
            push_at(&mut self.conditions, c, held);
            return self.release();
        }
        None
    }

    /// The holder signals a condition.
    pub fn signal(&mut self, p: u32, c: usize) -> Option<Granted>
        requires holds { is_held_by self.old p ≡ true }
        requires there { c < length self.old.conditions }
        ensures { signalled self.old c ≡ (self.new, result) }
    {
        if let Some(held) = self.holder {
            if let Some(next) = first_at(&mut self.conditions, c) {
                push_within(&mut self.urgent, held);
                self.holder = Some(next);
                return Some(Granted {
                    process: next.process,
                });
            }
        }
        None
    }

    /// The holder gives the monitor up, however often it has entered.
    pub fn drop_all(&mut self, p: u32) -> Option<Granted>
        requires { is_held_by self.old p ≡ true }
        ensures { dropped self.old ≡ (self.new, result) }
    {
        self.release()
    }

    /// The top of the urgent stack holds again; else the first of the entry queue enters; else the monitor is free.
    fn release(&mut self) -> Option<Granted>
        ensures { released self.old ≡ (self.new, result) }
    {
        match take_last(&mut self.urgent) {
            Some(held) => {
                self.holder = Some(held);
                Some(Granted {
                    process: held.process,
                })
            }
            None => match take_first(&mut self.entry) {
                Some(process) => {
                    self.holder = Some(Hold { process, depth: 1 });
                    Some(Granted { process })
                }
                None => {
                    self.holder = None;
                    None
                }
            },
        }
    }
}
