//! What a step reads and writes, and what it comes to.
ghost use Rattle.std.specs.Prelude.{◌≡◌, IfOk, OnOk};
ghost use Rattle.ec_code.specs.Steps as spec;
ghost use Rattle.ec_stepping.specs.Stepping.{as_machine};

use ec_code::activation::{put, set_named};
use ec_code::code::Variable;
use ec_world::common::Common;
use ec_world::value::{Oid, Value, Values};
use std::alloc::AllocError;

/// What the world has beside its processes, and the variables of an activation.
#[derive(Drop)]
pub struct Machine {
    pub common: Common,
    pub variables: Values,
    pub temporaries: Values,
}

/// What a step comes to: the code goes on, past so many steps; the activation rests here, with these operands of the stop; it is
/// at the top of its loop, so many steps before; or there is no case.
#[derive(Drop)]
pub enum Outcome {
    Goes { over: u32 },
    Rests { operands: Values },
    Loops { back: u32 },
    NoCase,
}

impl Machine {
    /// A variable gets a value. The error is want of memory.
    pub(crate) fn set(&mut self, to: Variable, value: Value) -> Result<(), AllocError>
        ensures { OnOk result (as_machine self.new ≡ spec.with_variable (as_machine self.old) to value) }
    {
        match to {
            Variable::Named(n) => set_named(&mut self.variables, n as usize, value),
            Variable::Temporary(d) => put(&mut self.temporaries, d as usize, value),
        }
    }

    /// A field of an object gets a value, where it is there.
    pub(crate) fn set_field(&mut self, own: Oid, n: usize, value: Value)
        ensures { as_machine self.new
            ≡ record (as_machine self.old) { common = spec.with_field self.old.common own n value } }
    {
        let objects = &mut self.common.objects;
        if own > 0 && own as usize <= objects.len() {
            let fields = &mut objects.at_mut(own as usize - 1).fields;
            if n < fields.len() {
                fields.set(n, value);
            }
        }
    }
}
