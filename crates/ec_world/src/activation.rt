//! What a world asks of an activation.
ghost use Rattle.std.specs.Prelude.{◌≡◌, IfOk, OnOk};
ghost use Rattle.ec_world.specs.Meaning.{ActivationMeaning};

use crate::stop::Stop;
use crate::value::{Oid, OpNo, Value, Values};
use std::alloc::{AllocError, Global};

/// An activation of an operation. It rests at a stop, whose action is pending or done.
pub trait Activation: Drop {
    ghost meaning: { ActivationMeaning Self };

    /// The operation.
    fn operation(&self) -> OpNo
        ensures { result ≡ meaning.operation self.now };

    /// The object on which the operation runs.
    fn own(&self) -> Oid
        ensures { result ≡ meaning.own self.now };

    /// The stop.
    fn stop(&self) -> Stop
        ensures { result ≡ meaning.stop self.now };

    /// The operands of the stop's action.
    fn operands(&self) -> Result<Values, AllocError>
        ensures { IfOk result (λ vs. vs ≡ meaning.operands self.now) };

    /// Whether the stop's action is still to be done.
    fn is_pending(&self) -> bool
        ensures { result ≡ meaning.is_pending self.now };

    /// A new activation, which rests pending at the operation's entry.
    fn begin(alloc: Global, op: OpNo, own: Oid, args: Values) -> Result<Self, AllocError>
        ensures { IfOk result (λ a. a ≡ meaning.begun op own args) };

    /// The stop's action is done. A result, where there is one, is a value of the activation from now on.
    fn finish(&mut self, given: Option<Value>) -> Result<(), AllocError>
        ensures { OnOk result (self.new ≡ meaning.finished self.old given) };
}
