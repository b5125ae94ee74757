//! Where each object was and which process ran where, over the time of a run. Time is counted in entries that are done.
ghost use Rattle.std.specs.Prelude.{◌≤◌};

use crate::history::{Actor, Deed, EntrySeen, History, Step};
use std::alloc::{AllocError, Global};

/// An object is on a node for a while: from a time until another one. `came_from` is its stay before this one, by place.
#[derive(Clone, Copy)]
pub struct Stay {
    pub object: u32,
    pub node: u32,
    pub from: u32,
    pub until: u32,
    pub came_from: Option<usize>,
}

/// A process has all entries from the first to the last one, by their numbers, and runs so many instructions on one node.
#[derive(Clone, Copy)]
pub struct Stretch {
    pub process: u32,
    pub node: u32,
    pub first: u32,
    pub last: u32,
    pub instructions: u64,
}

/// The stays so far, and each object's last one, by place.
#[derive(Drop)]
struct Stays {
    all: Vec<Stay>,
    last: Vec<Option<usize>>,
}

/// A number, or 1 in place of 0.
pub fn at_least_one(number: u32) -> u32
    ensures { 1 ≤ result }
{
    if number == 0 { 1 } else { number }
}

/// How many entries a history has.
pub fn entry_count(history: &History) -> u32 {
    match history.entries.last() {
        Some(entry) => entry.number,
        None => 0,
    }
}

/// The stays of all objects but the nodes' own, in the order in which they begin.
pub fn object_stays(alloc: Global, history: &History) -> Result<Vec<Stay>, AllocError> {
    let mut stays = Stays {
        all: Vec::new(alloc),
        last: Vec::new(alloc),
    };
    let end = entry_count(history);
    stays.add_loaded(history, end)?;
    for entry in &history.entries {
        stays.add_entry(history, entry, end)?;
    }
    Ok(stays.all)
}

impl Stays {
    /// The stays of the objects that are there after loading.
    fn add_loaded(&mut self, history: &History, end: u32) -> Result<(), AllocError> {
        for (place, object) in history.objects.iter().enumerate() {
            self.last.push(None)?;
            if object.made_by == 0 && place >= history.nodes.len() {
                self.begin(place, object.node, 0, end)?;
            }
        }
        Ok(())
    }

    /// The stays that an entry begins and ends.
    fn add_entry(
        &mut self,
        history: &History,
        entry: &EntrySeen,
        end: u32,
    ) -> Result<(), AllocError> {
        let at = entry.number.saturating_sub(1);
        for deed in &entry.deeds {
            match deed {
                Deed::Made { object } => if let Some(made) = history.object(*object) {
                    self.begin((*object as usize).saturating_sub(1), made.node, at, end)?;
                },
                Deed::Moved { steps, .. } => self.add_steps(steps, at, end)?,
                _ => {}
            }
        }
        Ok(())
    }

    /// Each of these objects is where it went.
    fn add_steps(&mut self, steps: &[Step], at: u32, end: u32) -> Result<(), AllocError> {
        for step in steps {
            self.begin((step.object as usize).saturating_sub(1), step.to, at, end)?;
        }
        Ok(())
    }

    /// The object at a place is on a node from now on, up to the end unless it moves.
    fn begin(&mut self, place: usize, node: u32, at: u32, end: u32) -> Result<(), AllocError> {
        let Some(last) = self.last.get_mut(place) else {
            return Ok(());
        };
        let came_from = *last;
        *last = Some(self.all.len());
        if let Some(before) = came_from {
            if let Some(stay) = self.all.get_mut(before) {
                stay.until = at;
            }
        }
        let object = number_at(place);
        self.all.push(Stay {
            object,
            node,
            from: at,
            until: end,
            came_from,
        })?;
        Ok(())
    }
}

/// The number of the object at a place, from 0; 2^32 - 1 where it has none of 32 bits.
pub fn number_at(place: usize) -> u32 {
    match u32::try_from(place) {
        Ok(place) => place.saturating_add(1),
        Err(_) => u32::MAX,
    }
}

/// The stretches of all processes, in their order.
pub fn stretches(alloc: Global, history: &History) -> Result<Vec<Stretch>, AllocError> {
    let mut stretches = Vec::new(alloc);
    for entry in &history.entries {
        if let Some(next) = stretch_of(entry) {
            add_stretch(&mut stretches, next)?;
        }
    }
    Ok(stretches)
}

/// What an entry alone is, where it ran a process.
fn stretch_of(entry: &EntrySeen) -> Option<Stretch> {
    let Actor::Process(process) = entry.actor else {
        return None;
    };
    let stop = entry.stop.as_ref()?;
    Some(Stretch {
        process,
        node: entry.ran_on.unwrap_or(stop.node),
        first: entry.number,
        last: entry.number,
        instructions: entry.instructions,
    })
}

/// One more stretch, which goes on with the last one where it is of the same process, on the same node, and next to it.
fn add_stretch(stretches: &mut Vec<Stretch>, next: Stretch) -> Result<(), AllocError> {
    if let Some(last) = stretches.last_mut() {
        if last.process == next.process
            && last.node == next.node
            && last.last.saturating_add(1) == next.first
        {
            last.last = next.last;
            last.instructions = last.instructions.saturating_add(next.instructions);
            return Ok(());
        }
    }
    stretches.push(next)?;
    Ok(())
}
