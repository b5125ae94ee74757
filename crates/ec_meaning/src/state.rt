//! What silent steps read and write, and what a step comes to.
ghost use Rattle.std.specs.Prelude.{◌≡◌, IfOk, OnOk, IfNone, OnSome, [], ◌∷◌};
ghost use Rattle.ec_base.specs.Stack.{below_of, top_of};
ghost use Rattle.ec_meaning.specs.Running.{numbers_held, truth_held, two_held};
ghost use Rattle.ec_meaning.specs.Steps as spec;

use ec_base::list::Seq;
use ec_world::common::Common;
use ec_world::process::Cause;
use ec_world::stop::Stop;
use ec_world::value::{Oid, OpNo, Value, Values};
use std::alloc::AllocError;

/// What the world has beside its processes, the variables of the operation, and the values that are held, the last one
/// last.
#[derive(Drop)]
pub struct State {
    pub common: Common,
    pub variables: Values,
    pub held: Values,
}

/// The operation and the own object of an activation.
#[derive(Clone, Copy)]
pub struct Whose {
    pub operation: OpNo,
    pub own: Oid,
}

/// What a step comes to: the activation goes on with what is then to do, it rests at a stop with operands, or there is no
/// case for it.
#[derive(Drop)]
pub enum Outcome {
    Goes,
    Rests { stop: Stop, operands: Values },
    NoCase,
}

impl State {
    /// One more value is held. The error is want of memory.
    pub(crate) fn gives(&mut self, value: Value) -> Result<Outcome, AllocError>
        ensures goes { IfOk result (λ o. o ≡ Outcome.Goes) }
        ensures given { OnOk result (self.new ≡ spec.pushed self.old value) }
    {
        self.held.push(value)?;
        Ok(Outcome::Goes)
    }

    /// The value held last, taken off, where it is a truth.
    pub(crate) fn pop_truth(&mut self) -> Option<bool>
        ensures truth { result ≡ truth_held (top_of self.old.held) }
        ensures below { self.new ≡ spec.holding self.old (below_of self.old.held) }
    {
        match self.held.pop() {
            Some(Value::Bool(truth)) => Some(truth),
            _ => None,
        }
    }

    /// The two values held last, taken off, where there are two: the one below, and the last one.
    pub(crate) fn pop_two(&mut self) -> Option<(Value, Value)>
        ensures two { result ≡ two_held self.old.held }
        ensures below { OnSome result (self.new ≡ spec.holding self.old (below_of (below_of self.old.held))) }
        ensures kept { self.new.common ≡ self.old.common }
    {
        let last = self.held.pop()?;
        let under = self.held.pop()?;
        Some((under, last))
    }

    /// Two values are held, the second one last. The error is want of memory.
    pub(crate) fn hold_two(&mut self, under: Value, last: Value) -> Result<(), AllocError>
        ensures { OnOk result (self.new ≡ spec.pushed (spec.pushed self.old under) last) }
    {
        self.held.push(under)?;
        self.held.push(last)
    }

    /// The two values held last, taken off, where they are two numbers.
    pub(crate) fn pop_numbers(&mut self) -> Option<(i32, i32)>
        ensures numbers { result ≡ numbers_held (two_held self.old.held) }
        ensures below { OnSome result (self.new ≡ spec.holding self.old (below_of (below_of self.old.held))) }
        ensures kept { self.new.common ≡ self.old.common }
    {
        let (under, last) = self.pop_two()?;
        match (under, last) {
            (Value::Int(a), Value::Int(b)) => Some((a, b)),
            _ => None,
        }
    }

    /// The activation rests at a stop that takes no operands.
    pub(crate) fn rests(&self, stop: Stop) -> Outcome
        ensures { result ≡ Outcome.Rests stop [] }
    {
        Outcome::Rests {
            stop,
            operands: Seq::new(self.held.allocator()),
        }
    }

    /// The process fails.
    pub(crate) fn fails(&self, cause: Cause, line: u32) -> Outcome
        ensures { result ≡ Outcome.Rests (Stop.Fail cause line) [] }
    {
        self.rests(Stop::Fail { cause, line })
    }
}
