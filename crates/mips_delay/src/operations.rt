//! The operations of a code whose words have moved, and their stops.
ghost use Rattle.std.specs.Prelude.{◌≡◌, ◌<◌, ◌≤◌, ℕ, length, IfOk, map, slice_get};
ghost use Rattle.ec_machine_code.specs.Stops.{stops_if, words_before};
ghost use Rattle.mips_delay.specs.Choice.{set_at};
ghost use Rattle.mips_delay.specs.Places.{moved_to, place};

use crate::moves::Moves;
use ec_base::list::Seq;
use ec_machine_code::code::OperationCode;
use std::alloc::{AllocError, Global};

/// The operations, each from where its first word goes to where the word behind it goes.
pub fn put_operations(
    alloc: Global,
    operations: &Seq<OperationCode>,
    moves: &Moves,
) -> Result<Seq<OperationCode>, AllocError>
    ensures many { IfOk result (λ new. length new ≡ length operations.now) }
    ensures begins { IfOk result (λ new. (op : ℕ) → op ≤ length operations.now →
        words_before new op ≡ place (set_at moves.now.fills.items) (words_before operations.now op)) }
    ensures stops { IfOk result (λ new. (op : ℕ) → op < length operations.now → stops_if (slice_get new op)
        ≡ map (moved_to (set_at moves.now.fills.items)) (stops_if (slice_get operations.now op))) }
{
    let mut new = Seq::new(alloc);
    let mut begin: usize = 0;
    for i in 0..operations.len() {
        let operation = operations.at(i);
        let stops = put_stops(alloc, &operation.stops, moves)?;
        let words = moves.span(begin, operation.words);
        new.push(OperationCode { words, stops })?;
        begin = moves.behind(begin, operation.words);
    }
    Ok(new)
}

/// The addresses of stops, each where its word goes.
#[tactic(auto, using(crate::proofs::Written::map_next))]
fn put_stops(alloc: Global, stops: &Seq<u32>, moves: &Moves) -> Result<Seq<u32>, AllocError>
    ensures { IfOk result (λ new. new ≡ map (moved_to (set_at moves.now.fills.items)) stops.now) }
{
    let mut new = Seq::new(alloc);
    for i in 0..stops.len() {
        new.push(moves.moved_to(*stops.at(i)))?;
    }
    Ok(new)
}
