//! Silent steps from behind a stop to the next one.
ghost use Rattle.std.specs.Prelude.{◌≡◌, IfOk, drop};
ghost use Rattle.ec_code.specs.Activations as spec;
ghost use Rattle.ec_code.specs.Steps.{Loops};
ghost use Rattle.ec_stepping.specs.Stepping.{as_machine, rests_as, settled};

use crate::machine::{Machine, Outcome};
use crate::steps::step;
use ec_base::list::Seq;
use ec_code::code::{Line, Op, Variable};
use ec_world::stop::Stop;
use ec_world::value::{Oid, Text, Values};
use std::alloc::{AllocError, Global};

/// A stop that is reached, by its place in the code: its operands, and the variable that waits for its result.
#[derive(Drop)]
pub struct AtStop {
    pub stop: Stop,
    pub operands: Values,
    pub into: Option<Variable>,
    pub place: u32,
}

/// A count as a number of 32 bits. Want of memory where it has more: a table of such numbers is full.
fn number_of(count: usize) -> Result<u32, AllocError>
    ensures { IfOk result (λ number. number ≡ count) }
{
    match u32::try_from(count) {
        Ok(number) => Ok(number),
        Err(_) => Err(AllocError),
    }
}

/// The stop at a place, with its operands. The error is a place of more than 32 bits.
fn reached(op: &Op, place: usize, operands: Values) -> Result<Option<AtStop>, AllocError>
    ensures { IfOk result (λ r. (m : Machine) → settled r m ≡ spec.walk_by place (λ over n. (n.common, None)) (as_machine m)
        (rests_as op.now operands)) }
{
    match op {
        Op::Rest(row) => Ok(Some(AtStop {
            stop: row.stop,
            operands,
            into: row.into,
            place: number_of(place)?,
        })),
        _ => Ok(None),
    }
}

/// The top of the loop that ends at a place, so many steps before. The error is a place of more than 32 bits.
fn loop_top(alloc: Global, place: usize, back: u32) -> Result<AtStop, AllocError>
    ensures { IfOk result (λ r. (m : Machine) → settled (Some r) m ≡ spec.walk_by place (λ over n. (n.common, None)) (as_machine m)
        (Loops back)) }
{
    Ok(AtStop {
        stop: Stop::LoopTop,
        operands: Seq::new(alloc),
        into: None,
        place: number_of(place.saturating_sub(back as usize))?,
    })
}

/// Steps from a place on, up to the next stop, or none where there is no case for one of them. The error is want of memory, or a
/// place of more than 32 bits.
pub(crate) fn walk(
    literals: &[Text],
    own: Oid,
    code: &[Line],
    from: usize,
    m: &mut Machine,
) -> Result<Option<AtStop>, AllocError>
    ensures { IfOk result
        (λ r. settled r m.new ≡ spec.walk literals.now own from (drop from code.now) 0 (as_machine m.old)) }
{
    let mut at = from;
    while at < code.len() {
        match step(literals, own, m, &code[at].op)? {
            Outcome::Goes { over } => {
                let Some(next) = at.checked_add(1 + over as usize) else {
                    return Err(AllocError);
                };
                at = next;
            }
            Outcome::Rests { operands } => return reached(&code[at].op, at, operands),
            Outcome::Loops { back } => {
                let alloc = m.variables.allocator();
                return Ok(Some(loop_top(alloc, at, back)?));
            }
            Outcome::NoCase => return Ok(None),
        }
    }
    Ok(None)
}
