//! Activations of three-address code.
ghost use Rattle.std.specs.Prelude.{◌≡◌, ◌≤◌, length, slice_set, OnOk};
ghost use Rattle.ec_world.specs.declared.value.Value.{Value};
ghost use Rattle.ec_code.specs.Activations as spec;
ghost use Rattle.ec_code.specs.Activations.{code_meaning};
ghost use Rattle.ec_code.specs.Steps.{put};

use crate::code::Variable;
use ec_base::list::Seq;
use ec_world::activation::Activation;
use ec_world::stop::Stop;
use ec_world::value::{Oid, OpNo, Value, Values, copy_values};
use std::alloc::{AllocError, Global};

/// An activation: its operation, its own object, the stop at which it rests (by its place in the code, and as what it is),
/// the stop's operands, the variable that waits for its result, whether the action is pending, and its named variables and
/// temporaries.
#[derive(Drop)]
pub struct CodeActivation {
    pub operation: OpNo,
    pub own: Oid,
    pub at: u32,
    pub stop: Stop,
    pub operands: Values,
    pub into: Option<Variable>,
    pub pending: bool,
    pub variables: Values,
    pub temporaries: Values,
}

impl Activation for CodeActivation {
    ghost meaning = { code_meaning };

    fn operation(&self) -> OpNo {
        self.operation
    }

    fn own(&self) -> Oid {
        self.own
    }

    fn stop(&self) -> Stop {
        self.stop
    }

    fn operands(&self) -> Result<Values, AllocError> {
        copy_values(&self.operands)
    }

    fn is_pending(&self) -> bool {
        self.pending
    }

    fn begin(
        alloc: Global,
        op: OpNo,
        own: Oid,
        args: Values,
    ) -> Result<CodeActivation, AllocError> {
        Ok(CodeActivation {
            operation: op,
            own,
            at: 0,
            stop: Stop::Entry,
            operands: Seq::new(alloc),
            into: None,
            pending: true,
            variables: args,
            temporaries: Seq::new(alloc),
        })
    }

    fn finish(&mut self, given: Option<Value>) -> Result<(), AllocError> {
        self.pending = false;
        let Some(value) = given else {
            return Ok(());
        };
        let Some(into) = self.into else {
            return Ok(());
        };
        self.into = None;
        match into {
            Variable::Named(n) => set_named(&mut self.variables, n as usize, value),
            Variable::Temporary(d) => put(&mut self.temporaries, d as usize, value),
        }
    }
}

/// Sets a named variable, where it is there.
pub fn set_named(variables: &mut Values, at: usize, value: Value) -> Result<(), AllocError>
    ensures { OnOk result (variables.new ≡ slice_set variables.old at value) }
{
    if at < variables.len() {
        variables.set(at, value);
    }
    Ok(())
}

/// Sets a temporary.
pub fn put(temporaries: &mut Values, at: usize, value: Value) -> Result<(), AllocError>
    ensures { OnOk result (temporaries.new ≡ put temporaries.old at value) }
{
    pad(temporaries, at)?;
    if temporaries.len() == at {
        return temporaries.push(value);
    }
    temporaries.set(at, value);
    Ok(())
}

/// Nils up to a place.
fn pad(temporaries: &mut Values, at: usize) -> Result<(), AllocError>
    ensures long { OnOk result (at ≤ length temporaries.new) }
    ensures same { OnOk result ((v : Value) → put temporaries.new at v ≡ put temporaries.old at v) }
{
    while temporaries.len() < at {
        temporaries.push(Value::Nil)?;
    }
    Ok(())
}
