//! What is done once an action is looked at: to a world beside its processes, and what becomes of these.
ghost use Rattle.std.specs.Prelude.{◌≡◌, ◌++◌, false, slice_set, IfOk};
ghost use Rattle.ec_world.specs.Outcomes as spec;

use crate::common::Common;
use crate::doing::{Doing, Outcome};
use crate::event::Event;
use crate::stop::{Effect, Who};
use crate::value::{Oid, Oids, Text, Value, Values};
use std::alloc::{AllocError, Global};

impl Common {
    /// Does what an action comes to. An error is want of memory, an object whose number has more than 32 bits, or a process that
    /// has entered a monitor too often for 32 bits. Nothing is said of the world after an error.
    pub fn done(&mut self, alloc: Global, who: Who, doing: Doing) -> Result<Outcome, AllocError>
        ensures { IfOk result (λ o. spec.done self.old who doing ≡ (self.new, o)) }
    {
        match doing {
            Doing::Passes(given) => Ok(Outcome::only(Effect::GoesOn(given))),
            Doing::Prints(text) => self.print(text),
            Doing::Defines { index, value } => Ok(self.define(index, value)),
            Doing::Stores {
                vector,
                index,
                value,
            } => Ok(self.store(vector, index, value)),
            Doing::Makes { class, given } => self.make(alloc, who, class, given),
            Doing::MakesVector { of, size } => self.make_vector(alloc, who, of, size),
            Doing::Invokes { op, own, args } => Ok(Outcome::only(Effect::Calls { op, own, args })),
            Doing::Returns {
                given,
                leaves,
                section,
            } => Ok(self.leave(who, given, leaves, section)),
            Doing::Moves {
                members,
                target,
                fixes,
            } => self.send(members, target, fixes),
            Doing::Unfixes(oid) => Ok(self.unfix(oid)),
            Doing::Enters => self.enter(who),
            Doing::Waits(condition) => Ok(self.wait(who, condition)),
            Doing::Signals(condition) => Ok(self.signal(who, condition)),
            Doing::Finishes => Ok(Outcome::only(Effect::Ends)),
            Doing::Breaks { cause, line } => Ok(Outcome::only(Effect::Fails { cause, line })),
        }
    }

    /// The output gets a text. An error is want of memory.
    fn print(&mut self, text: Text) -> Result<Outcome, AllocError>
        ensures { IfOk result (λ o. spec.goes_on (record self.old { output = self.old.output ++ text }) ≡ (self.new, o)) }
    {
        self.output.append(text)?;
        Ok(Outcome::goes_on())
    }

    /// A global constant gets its value, where it is there.
    fn define(&mut self, index: u32, value: Value) -> Outcome
        ensures { spec.goes_on (record self.old { globals = slice_set self.old.globals index value }) ≡ (self.new, result) }
    {
        put(&mut self.globals, index, value);
        Outcome::goes_on()
    }

    /// An element of a vector gets a value, where both are there.
    fn store(&mut self, vector: Oid, index: u32, value: Value) -> Outcome
        ensures { spec.goes_on (spec.stored_in self.old vector index value) ≡ (self.new, result) }
    {
        if vector > 0 && vector as usize <= self.objects.len() {
            let object = self.objects.at_mut(vector as usize - 1);
            put(&mut object.fields, index, value);
        }
        Outcome::goes_on()
    }

    /// The members of a group go where an object is, and one of them is fixed from then on, if any. An error is want of memory.
    fn send(
        &mut self,
        members: Oids,
        target: Oid,
        fixes: Option<Oid>,
    ) -> Result<Outcome, AllocError>
        ensures { IfOk result (λ o. spec.goes_on (spec.gone self.old members target fixes) ≡ (self.new, o)) }
    {
        self.events.push(Event::Moved { members, target })?;
        match fixes {
            Some(oid) => self.set_fixed(oid, true),
            None => {}
        }
        Ok(Outcome::goes_on())
    }

    /// An object is fixed no more.
    fn unfix(&mut self, oid: Oid) -> Outcome
        ensures { spec.goes_on (spec.flagged self.old oid false) ≡ (self.new, result) }
    {
        self.set_fixed(oid, false);
        Outcome::goes_on()
    }

    /// An object, where it is there, is fixed from now on, or fixed no more.
    fn set_fixed(&mut self, oid: Oid, fixed: bool)
        ensures { self.new ≡ spec.flagged self.old oid fixed }
    {
        if oid > 0 && oid as usize <= self.objects.len() {
            self.objects.at_mut(oid as usize - 1).fixed = fixed;
        }
    }
}

/// Another value at a place, where it is there.
fn put(values: &mut Values, at: u32, value: Value)
    ensures { values.new ≡ slice_set values.old at value }
{
    if (at as usize) < values.len() {
        values.set(at as usize, value);
    }
}
