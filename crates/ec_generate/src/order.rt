//! The order in which the words of an operation's steps stand.
ghost use Rattle.std.specs.Prelude.{◌≡◌, IfOk, length, map};
ghost use Rattle.ec_generate.specs.Orders.{steps_below};
ghost use Rattle.ec_machine_code.specs.Layout.{IsOrder};

use ec_base::list::Seq;
use ec_code::code::{Line, Op};
use ec_world::stop::Stop;
use std::alloc::{AllocError, Global};

/// A step, and where it goes: steps stand in the order of these numbers.
#[derive(Clone, Copy, PartialEq, Eq, PartialOrd, Ord)]
struct Spot {
    at: usize,
    step: usize,
}

/// Where a step leads past the next one.
fn leads_to(place: usize, op: &Op) -> Option<usize> {
    match op {
        Op::Branch { over, .. } => place.checked_add(*over as usize + 1),
        Op::Jump { over } => place.checked_add(*over as usize + 1),
        Op::Copy { .. }
        | Op::Literal { .. }
        | Op::Itself { .. }
        | Op::Field { .. }
        | Op::SetField { .. }
        | Op::Constant { .. }
        | Op::Compute { .. }
        | Op::Decide { .. }
        | Op::Again { .. }
        | Op::Rest(_) => None,
    }
}

/// Whether a step does nothing but fail.
fn fails(op: &Op) -> bool {
    match op {
        Op::Rest(row) => matches!(row.stop, Stop::Fail { .. }),
        Op::Copy { .. }
        | Op::Literal { .. }
        | Op::Itself { .. }
        | Op::Field { .. }
        | Op::SetField { .. }
        | Op::Constant { .. }
        | Op::Compute { .. }
        | Op::Decide { .. }
        | Op::Branch { .. }
        | Op::Jump { .. }
        | Op::Again { .. } => false,
    }
}

/// How many steps a loop has from its top to the first that may leave it, where one does; the loop ends at a place.
fn top_size(code: &Seq<Line>, back: usize, end: usize) -> Option<usize> {
    for n in 0..back {
        let place = end.saturating_sub(back).saturating_add(n);
        if let Some(line) = code.get(place) {
            if let Some(to) = leads_to(place, &line.op) {
                if end < to {
                    return Some(n + 1);
                }
            }
        }
    }
    None
}

/// So many steps from a place on go this much further behind.
fn move_behind(at: &mut Vec<usize>, first: usize, count: usize, by: usize)
    ensures { length at.new.items ≡ length at.old.items }
{
    for n in 0..count {
        let place = first.saturating_add(n);
        if place < at.len() {
            at[place] = at[place].wrapping_add(by);
        }
    }
}

/// A loop that ends at a place is turned over: its body comes first, and falls into its top.
fn turn_over(at: &mut Vec<usize>, code: &Seq<Line>, back: usize, end: usize)
    ensures { length at.new.items ≡ length at.old.items }
{
    if let Some(size) = top_size(code, back, end) {
        let top = end.saturating_sub(back);
        let body = back.saturating_add(1).saturating_sub(size);
        move_behind(at, top, size, body);
        move_behind(
            at,
            top.saturating_add(size),
            body,
            0usize.wrapping_sub(size),
        );
    }
}

/// Where each step goes: as they are, but for loops, which are turned over, and steps that only fail, which go behind all others. The
/// error is want of memory.
fn spots_of(alloc: Global, code: &Seq<Line>) -> Result<Vec<usize>, AllocError> {
    let count = code.len();
    let mut at = vec![in alloc; 0; count]?;
    for place in 0..count {
        move_behind(&mut at, place, 1, place);
    }
    for place in 0..count {
        let op = &code.at(place).op;
        if let Op::Again { back } = op {
            turn_over(&mut at, code, *back as usize, place);
        }
        if fails(op) {
            move_behind(&mut at, place, 1, count);
        }
    }
    Ok(at)
}

/// Each step with where it goes. The error is want of memory.
fn listed(alloc: Global, at: &Vec<usize>, count: usize) -> Result<Vec<Spot>, AllocError>
    ensures { IfOk result (λ spots. map (λ s. s.step) spots.items ≡ steps_below count) }
{
    let mut spots = Vec::new(alloc);
    for step in 0..count {
        let at = match at.get(step) {
            Some(it) => *it,
            None => step,
        };
        spots.push(Spot { at, step })?;
    }
    Ok(spots)
}

/// The steps alone. The error is want of memory.
fn steps_of(alloc: Global, spots: &Seq<Spot>) -> Result<Seq<usize>, AllocError>
    ensures { IfOk result (λ steps. steps ≡ map (λ s. s.step) spots.now) }
{
    let mut steps = Seq::new(alloc);
    for k in 0..spots.len() {
        steps.push(spots.at(k).step)?;
    }
    Ok(steps)
}

/// The order in which the steps of an operation's code stand. The error is want of memory.
pub(crate) fn order_of(alloc: Global, code: &Seq<Line>) -> Result<Seq<usize>, AllocError>
    ensures { IfOk result (λ order. IsOrder (length code.now) order) }
{
    let at = spots_of(alloc, code)?;
    let mut spots = listed(alloc, &at, code.len())?;
    spots.sort()?;
    let sorted = Seq::from_vec(spots);
    let order = steps_of(alloc, &sorted)?;
    Ok(order)
}
