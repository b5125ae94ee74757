//! Silent steps from behind a stop to the next one.
ghost use Rattle.std.specs.Prelude.{◌≡◌, IfOk};
ghost use Rattle.ec_meaning.specs.Meaning as spec;
ghost use Rattle.ec_meaning.specs.Running.{settled_at};
ghost use Rattle.ec_meaning.specs.Sources.{source_of};
ghost use Rattle.ec_meaning.specs.Weights.{weight};

use crate::source::Program;
use crate::state::{Outcome, State, Whose};
use crate::steps::step;
use crate::todo::Todo;
use ec_world::stop::Stop;
use ec_world::value::Values;
use std::alloc::AllocError;

/// A stop that is reached, and its operands.
#[derive(Drop)]
pub struct AtStop {
    pub stop: Stop,
    pub operands: Values,
}

/// Silent steps up to the next stop, or none where there is no case for one of them. The error is that of a step.
pub(crate) fn settle(
    program: &Program<'_>,
    whose: Whose,
    state: &mut State,
    todo: &mut Todo,
) -> Result<Option<AtStop>, AllocError>
    ensures { IfOk result
        (λ r. settled_at r state.new todo.new ≡ spec.settle (source_of program.now) whose (weight todo.old) state.old todo.old) }
{
    while let Some(item) = todo.pop() {
        match step(program, whose, item, state, todo)? {
            Outcome::Goes => {}
            Outcome::Rests { stop, operands } => return Ok(Some(AtStop { stop, operands })),
            Outcome::NoCase => return Ok(None),
        }
    }
    Ok(None)
}
