//! The code behind a stop, for turns in a world.
ghost use Rattle.std.specs.Prelude.{◌≡◌, IfOk, OnOk, length};
ghost use Rattle.ec_code.specs.Activations as spec;
ghost use Rattle.ec_code.specs.Activations.{code_silent};
ghost use Rattle.ec_stepping.specs.Stepping.{settled, variables_from};

use crate::machine::Machine;
use crate::walking::{AtStop, walk};
use ec_code::activation::CodeActivation;
use ec_code::code::{Line, Parts};
use ec_world::common::Common;
use ec_world::silent::Silent;
use ec_world::value::{OpNo, Value, Values, copy_values};
use std::alloc::AllocError;

/// Three-address code that is run.
#[derive(Clone, Copy)]
pub struct Code<'a> {
    pub parts: &'a Parts,
}

impl<'a> Code<'a> {
    /// The code of an operation, and how many variables it has; nothing where there is no operation of this number.
    fn operation(&self, op: OpNo) -> (&'a [Line], usize)
        ensures lines { result.0.now ≡ spec.code_if (spec.operation_at self.now.parts.now op) }
        ensures variables { result.1 ≡ length (spec.variables_if (spec.operation_at self.now.parts.now op)) }
    {
        match self.parts.operations.get(op as usize) {
            Some(o) => (o.code.as_slice(), o.variables.len()),
            None => (&[], 0),
        }
    }
}

/// Nil for each variable that isn't an argument. The error is want of memory.
fn open(variables: &mut Values, count: usize) -> Result<(), AllocError>
    ensures { OnOk result (variables.new ≡ spec.opened variables.old count) }
{
    for _n in variables.len()..count {
        variables.push(Value::Nil)?;
    }
    Ok(())
}

/// The variables behind the stop at which an activation rests. The error is want of memory.
fn variables_behind(a: &CodeActivation, count: usize) -> Result<Values, AllocError>
    ensures { IfOk result (λ vs. vs ≡ variables_from a.now count a.now.at) }
{
    let mut variables = copy_values(&a.variables)?;
    if a.at == 0 {
        open(&mut variables, count)?;
    }
    Ok(variables)
}

/// An activation that rests at a stop, or stays where it was, with what the world has then.
fn resting(a: CodeActivation, at: Option<AtStop>, m: Machine) -> (Common, CodeActivation)
    ensures { result ≡ spec.resting a (settled at m) }
{
    let Some(at) = at else {
        return (m.common, a);
    };
    let rested = CodeActivation {
        operation: a.operation,
        own: a.own,
        at: at.place,
        stop: at.stop,
        operands: at.operands,
        into: at.into,
        pending: true,
        variables: m.variables,
        temporaries: m.temporaries,
    };
    (m.common, rested)
}

impl<'a> Silent<CodeActivation> for Code<'a> {
    ghost steps = { λ c. code_silent c.parts.now };

    fn go_on(
        &self,
        common: Common,
        a: CodeActivation,
    ) -> Result<(Common, CodeActivation), AllocError> {
        let (code, count) = self.operation(a.operation);
        let variables = variables_behind(&a, count)?;
        let temporaries = copy_values(&a.temporaries)?;
        let mut m = Machine {
            common,
            variables,
            temporaries,
        };
        let literals = self.parts.literals.as_slice();
        let from = a.at as usize + 1;
        let at = walk(literals, a.own, code, from, &mut m)?;
        Ok(resting(a, at, m))
    }
}
