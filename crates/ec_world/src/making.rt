//! New objects.
ghost use Rattle.std.specs.Prelude.{◌≡◌, IfOk};
ghost use Rattle.ec_world.specs.Objects.{class_at};
ghost use Rattle.ec_world.specs.Outcomes as spec;

use crate::class::{ClassNo, ClassRec, VectorType};
use crate::common::Common;
use crate::doing::Outcome;
use crate::event::Event;
use crate::initial::{default_elements, push_defaults};
use crate::object::ObjectRec;
use crate::stop::{Effect, Who};
use crate::value::{Value, Values, number_of};
use ec_base::list::Seq;
use ec_monitors::monitor::Monitor;
use std::alloc::{AllocError, Global};

impl Common {
    /// A new object of a class, where there is the class, with an activation on it. An error is want of memory, or an object whose
    /// number has more than 32 bits.
    pub(crate) fn make(
        &mut self,
        alloc: Global,
        who: Who,
        class: ClassNo,
        given: Values,
    ) -> Result<Outcome, AllocError>
        ensures { IfOk result (λ o. spec.made_object self.old who class given (class_at self.old.classes class) ≡ (self.new, o)) }
    {
        let Some(made) = self.class(class) else {
            return Ok(Outcome::goes_on());
        };
        let initial = made.initial;
        let mut fields = given;
        let from = fields.len();
        push_defaults(alloc, &mut fields, &made.fields, from)?;
        let monitor = monitor_for(alloc, made)?;
        self.objects.push(ObjectRec {
            class,
            fields,
            fixed: false,
            monitor,
        })?;
        let oid = number_of(self.objects.len())?;
        self.events.push(Event::Created {
            oid,
            maker: who.own,
        })?;
        Ok(Outcome::only(Effect::Calls {
            op: initial,
            own: oid,
            args: Seq::new(alloc),
        }))
    }

    /// A new vector of so many elements. An error is want of memory, or an object whose number has more than 32 bits.
    pub(crate) fn make_vector(
        &mut self,
        alloc: Global,
        who: Who,
        of: VectorType,
        size: u32,
    ) -> Result<Outcome, AllocError>
        ensures { IfOk result (λ o. spec.made_vector self.old who of size ≡ (self.new, o)) }
    {
        self.objects.push(ObjectRec {
            class: ClassNo::Vector(of),
            fields: default_elements(alloc, of.elements(), size)?,
            fixed: false,
            monitor: None,
        })?;
        let oid = number_of(self.objects.len())?;
        self.events.push(Event::Created {
            oid,
            maker: who.own,
        })?;
        Ok(Outcome::only(Effect::GoesOn(Some(Value::Ref(oid)))))
    }
}

/// The monitor of a new object of a class, where its objects have one. An error is want of memory.
fn monitor_for(alloc: Global, class: &ClassRec) -> Result<Option<Monitor>, AllocError>
    ensures { IfOk result (λ m. m ≡ spec.monitor_for class.now) }
{
    if class.monitored {
        let monitor = Monitor::new(alloc, class.conditions as usize)?;
        return Ok(Some(monitor));
    }
    Ok(None)
}
