//! What the action of a stop comes to, and what becomes of processes once it is done.
ghost use Rattle.std.specs.Prelude.{◌≡◌, None, Some};

use crate::class::{ClassNo, VectorType};
use crate::process::Cause;
use crate::stop::Effect;
use crate::value::{Oid, Oids, OpNo, Text, Value, Values};
use ec_monitors::record::Granted;

/// What the action of a stop comes to, once its operands and the world are looked at. The own object and the process are those of
/// the activation that acts.
#[derive(Drop)]
pub enum Doing {
    /// Nothing is to be done but to go on, with a result where there is one.
    Passes(Option<Value>),
    /// The output gets a text.
    Prints(Text),
    /// A global constant gets its value, by its place among these (from 0).
    Defines {
        index: u32,
        value: Value,
    },
    /// An element of a vector, which is there, gets a value.
    Stores {
        vector: Oid,
        index: u32,
        value: Value,
    },
    /// A new object of a class, with the values that its creation gives, and an activation of operation 0 on it.
    Makes {
        class: ClassNo,
        given: Values,
    },
    /// A new vector of so many elements (0 to 16,384).
    MakesVector {
        of: VectorType,
        size: u32,
    },
    /// An activation of an operation on an object.
    Invokes {
        op: OpNo,
        own: Oid,
        args: Values,
    },
    /// The activation goes, with a result where it has one; whether it leaves the own object's monitor; and the process section that
    /// begins on the own object behind it, if any.
    Returns {
        given: Option<Value>,
        leaves: bool,
        section: Option<OpNo>,
    },
    /// These objects go where another one is, and one of them is fixed from then on, if any.
    Moves {
        members: Oids,
        target: Oid,
        fixes: Option<Oid>,
    },
    /// An object is fixed no more.
    Unfixes(Oid),
    /// The process enters the own object's monitor, or waits to.
    Enters,
    /// The process waits for a condition of the own object, by its number from 0.
    Waits(u32),
    /// The process signals a condition of the own object, by its number from 0.
    Signals(u32),
    /// The process ends.
    Finishes,
    /// The process fails.
    Breaks {
        cause: Cause,
        line: u32,
    },
}

impl Doing {
    /// The action gives a value.
    pub(crate) fn giving(value: Value) -> Doing
        ensures { result ≡ Doing.Passes (Some value) }
    {
        Doing::Passes(Some(value))
    }

    /// The process fails.
    pub(crate) fn breaking(cause: Cause, line: u32) -> Doing
        ensures { result ≡ Doing.Breaks cause line }
    {
        Doing::Breaks { cause, line }
    }
}

/// The process section with which a new process begins, and its own object.
#[derive(Clone, Copy, PartialEq, Eq, Debug)]
pub struct Section {
    pub operation: OpNo,
    pub own: Oid,
}

/// What becomes of processes once an action is done: the effect on the activations of the one that acted, the process that was
/// granted a monitor, and the section with which a new process begins.
#[derive(Drop)]
pub struct Outcome {
    pub effect: Effect,
    pub granted: Option<Granted>,
    pub started: Option<Section>,
}

impl Outcome {
    /// No process is granted a monitor, and none starts.
    pub(crate) fn only(effect: Effect) -> Outcome
        ensures { result ≡ record { effect = effect; granted = None; started = None } }
    {
        Outcome {
            effect,
            granted: None,
            started: None,
        }
    }

    /// The action is done, and nothing else becomes of processes.
    pub(crate) fn goes_on() -> Outcome
        ensures { result ≡ record { effect = Effect.GoesOn None; granted = None; started = None } }
    {
        Outcome::only(Effect::GoesOn(None))
    }
}
