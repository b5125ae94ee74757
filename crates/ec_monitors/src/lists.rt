//! Lists with room: what is pushed within it takes no memory.
ghost use Rattle.std.specs.Prelude.{◌≡◌, ◌+◌, ◌<◌, ◌≤◌, ℕ, List, [], ◌∷◌, ◌++◌, length, Some, None, IfOk, OnOk, IsTrue, ◌↔◌, IfSome};
ghost use Rattle.std.specs.Prelude.{IfNone, replicate, slice_get, slice_set};
ghost use Rattle.std.specs.Vec.{vec_capacity};
ghost use Rattle.ec_base.specs.Stack.{top_of, below_of};
ghost use Rattle.ec_monitors.specs.Monitors.{queue_at};
ghost use Rattle.ec_monitors.specs.Room.{EachHasRoom, HasRoomFor, waiting_count, held_count, queues as lists};
ghost use Rattle.ec_monitors.specs.Standing.{times_entering, times_waiting, times_in_queues};
ghost use Rattle.ec_monitors.specs.declared.record.Hold.{Hold as HoldRec};

use crate::record::Hold;
use ec_base::list::Seq;
use std::alloc::{AllocError, Global};

/// One more item at the end of a list that has room.
pub(crate) fn push_within<T: Drop>(items: &mut Vec<T>, item: T)
    requires { length items.old.items < vec_capacity items.old }
    ensures items { items.new.items ≡ items.old.items ++ item ∷ [] }
    ensures room { vec_capacity items.old ≤ vec_capacity items.new }
{
    match items.push(item) {
        Ok(()) => {}
        Err(_) => unreachable!(),
    }
}

/// The first item, taken out.
pub(crate) fn take_first<T>(items: &mut Vec<T>) -> Option<T>
    ensures some { IfSome result (λ r. items.old.items ≡ r ∷ items.new.items) }
    ensures none { IfNone result (items.old.items ≡ []) }
    ensures none_new { IfNone result (items.new.items ≡ []) }
    ensures some_count { IfSome result (λ _. length items.new.items + 1 ≡ length items.old.items) }
    ensures room { vec_capacity items.new ≡ vec_capacity items.old }
{
    if items.is_empty() {
        return None;
    }
    Some(items.remove(0))
}

/// The last item, taken off.
pub(crate) fn take_last<T>(items: &mut Vec<T>) -> Option<T>
    ensures top { result ≡ top_of items.old.items }
    ensures below { items.new.items ≡ below_of items.old.items }
    ensures some_count { IfSome result (λ _. length items.new.items + 1 ≡ length items.old.items) }
    ensures none_count { IfNone result (length items.new.items ≡ length items.old.items) }
    ensures room { vec_capacity items.new ≡ vec_capacity items.old }
{
    items.pop()
}

/// Puts a process at the end of a queue that has room.
pub(crate) fn push_at(queues: &mut Vec<Vec<Hold>>, c: usize, held: Hold)
    requires there { c < length queues.old.items }
    requires room { (n : ℕ) × (waiting_count queues.old.items < n) × EachHasRoom n queues.old.items }
    ensures items { lists queues.new.items ≡ slice_set (lists queues.old.items) c
        (queue_at (slice_get (lists queues.old.items) c) ++ held ∷ []) }
    ensures count { waiting_count queues.new.items ≡ waiting_count queues.old.items + 1 }
    ensures room { (n : ℕ) → EachHasRoom n queues.old.items → EachHasRoom n queues.new.items }
{
    push_within(&mut queues[c], held);
}

/// Takes the first process of a queue.
pub(crate) fn first_at(queues: &mut Vec<Vec<Hold>>, c: usize) -> Option<Hold>
    requires there { c < length queues.old.items }
    ensures some { IfSome result
        (λ r. (rest : List HoldRec) × (queue_at (slice_get (lists queues.old.items) c) ≡ r ∷ rest)
        × (lists queues.new.items ≡ slice_set (lists queues.old.items) c rest)) }
    ensures none { IfNone result
        ((queue_at (slice_get (lists queues.old.items) c) ≡ []) × (lists queues.new.items ≡ lists queues.old.items)) }
    ensures count { waiting_count queues.old.items ≡ waiting_count queues.new.items + held_count result }
    ensures room { (n : ℕ) → EachHasRoom n queues.old.items → EachHasRoom n queues.new.items }
{
    take_first(&mut queues[c])
}

/// How many wait, and two more: one for the holder, one for who comes.
pub(crate) fn all_and_two(
    entry: usize,
    urgent: usize,
    conditions: &Vec<Vec<Hold>>,
) -> Result<usize, AllocError>
    ensures { IfOk result (λ n. n ≡ entry + urgent + waiting_count conditions.now.items + 2) }
{
    let mut n = 2usize;
    for q in conditions {
        n = match n.checked_add(q.len()) {
            Some(sum) => sum,
            None => return Err(AllocError),
        };
    }
    let n = match n.checked_add(entry) {
        Some(sum) => sum,
        None => return Err(AllocError),
    };
    match n.checked_add(urgent) {
        Some(sum) => Ok(sum),
        None => Err(AllocError),
    }
}

/// Makes room for so many items.
fn room_in<T>(items: &mut Vec<T>, room: usize) -> Result<(), AllocError>
    ensures items { items.new.items ≡ items.old.items }
    ensures more { vec_capacity items.old ≤ vec_capacity items.new }
    ensures ok { OnOk result (room ≤ vec_capacity items.new) }
{
    let more = room.saturating_sub(items.len());
    items.reserve(more)
}

/// Makes room for so many items in each queue.
fn queues_room(queues: &mut Vec<Vec<Hold>>, room: usize) -> Result<(), AllocError>
    ensures items { lists queues.new.items ≡ lists queues.old.items }
    ensures count { waiting_count queues.new.items ≡ waiting_count queues.old.items }
    ensures more { (n : ℕ) → EachHasRoom n queues.old.items → EachHasRoom n queues.new.items }
    ensures ok { OnOk result (EachHasRoom room queues.new.items) }
{
    for i in 0..queues.len() {
        room_in(&mut queues[i], room)?;
    }
    Ok(())
}

/// Makes room in every list for all that stand in them, a holder, and one more. The answer is how many that are.
pub(crate) fn make_room(
    entry: &mut Vec<u32>,
    urgent: &mut Vec<Hold>,
    conditions: &mut Vec<Vec<Hold>>,
) -> Result<usize, AllocError>
    ensures entry { (entry.new.items ≡ entry.old.items) × (vec_capacity entry.old ≤ vec_capacity entry.new) }
    ensures urgent { (urgent.new.items ≡ urgent.old.items) × (vec_capacity urgent.old ≤ vec_capacity urgent.new) }
    ensures conditions { (lists conditions.new.items ≡ lists conditions.old.items)
        × (waiting_count conditions.new.items ≡ waiting_count conditions.old.items) }
    ensures more { (n : ℕ) → EachHasRoom n conditions.old.items → EachHasRoom n conditions.new.items }
    ensures ok { IfOk result (λ n. HasRoomFor n entry.new urgent.new conditions.new.items) }
{
    let room = all_and_two(entry.len(), urgent.len(), conditions)?;
    room_in(entry, room)?;
    room_in(urgent, room)?;
    queues_room(conditions, room)?;
    Ok(room)
}

/// So many queues in which nobody waits.
pub(crate) fn empty_queues(alloc: Global, count: usize) -> Result<Vec<Vec<Hold>>, AllocError>
    ensures items { IfOk result (λ qs. lists qs.items ≡ replicate count []) }
    ensures none { IfOk result (λ qs. waiting_count qs.items ≡ 0) }
    ensures room { IfOk result (λ qs. EachHasRoom 0 qs.items) }
{
    let mut made = Vec::with_capacity(alloc, count)?;
    for _ in 0..count {
        made.push(Vec::new(alloc))?;
    }
    Ok(made)
}

/// A queue.
pub(crate) fn queue_of(queues: &Vec<Vec<Hold>>, c: usize) -> &[Hold]
    requires { c < length queues.now.items }
    ensures { result.now ≡ queue_at (slice_get (lists queues.now.items) c) }
{
    queues[c].as_slice()
}

/// The same queues, to be pushed to.
pub(crate) fn queues_of(alloc: Global, queues: &[Seq<Hold>]) -> Result<Vec<Vec<Hold>>, AllocError>
    ensures { IfOk result (λ qs. lists qs.items ≡ queues.now) }
{
    let mut made = Vec::with_capacity(alloc, queues.len())?;
    for q in queues {
        made.push(Vec::from_slice(alloc, q.as_slice())?)?;
    }
    Ok(made)
}

/// The same queues, as a record has them.
pub(crate) fn seqs_of(alloc: Global, queues: &Vec<Vec<Hold>>) -> Result<Seq<Seq<Hold>>, AllocError>
    ensures { IfOk result (λ qs. qs ≡ lists queues.now.items) }
{
    let mut made = Seq::new(alloc);
    for q in queues {
        made.push(Seq::from_vec(Vec::from_slice(alloc, q.as_slice())?))?;
    }
    Ok(made)
}

/// Whether a process stands in an entry queue.
pub(crate) fn waits_as(entry: &[u32], p: u32) -> bool
    ensures { IsTrue result ↔ (0 < times_entering p entry.now) }
{
    for q in entry {
        if *q == p {
            return true;
        }
    }
    false
}

/// Whether a process stands in a queue or on a stack.
pub(crate) fn waits_in(holds: &[Hold], p: u32) -> bool
    ensures { IsTrue result ↔ (0 < times_waiting p holds.now) }
{
    for held in holds {
        if held.process == p {
            return true;
        }
    }
    false
}

/// Whether a process stands in one of these queues.
pub(crate) fn waits_in_any(queues: &Vec<Vec<Hold>>, p: u32) -> bool
    ensures { IsTrue result ↔ (0 < times_in_queues p (lists queues.now.items)) }
{
    for q in queues {
        if waits_in(q, p) {
            return true;
        }
    }
    false
}
