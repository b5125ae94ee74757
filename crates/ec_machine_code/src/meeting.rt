//! Which variables meet one.
ghost use Rattle.std.specs.Prelude.{◌≡◌, ◌++◌, ◌≤◌, ◌^◌, true, Some, IfNone, IfOk, IfSome, drop, map};
ghost use Rattle.std.specs.Prelude.{slice_set};
ghost use Rattle.ec_machine_code.specs.Homes as homes;
ghost use Rattle.ec_machine_code.specs.Meeting as spec;
ghost use Rattle.ec_machine_code.specs.Rows.{marked_with, row_of};
ghost use Rattle.ec_code.specs.Live.{writes};
ghost use Rattle.ec_code.specs.Marks.{is_among};

use ec_base::list::Seq;
use ec_code::code::{Line, Live, Variable};
use ec_code::steps::{is_same, written};
use std::alloc::{AllocError, Global};

/// The place of a variable among all, named ones first, where there are so many of these. One beyond 64 bits is no place.
fn column(named: usize, x: Variable) -> Option<usize>
    ensures some { IfSome result (λ c. c ≡ homes.column named x) }
    ensures none { IfNone result (2 ^ 64 ≤ homes.column named x) }
{
    match x {
        Variable::Named(n) => Some(n as usize),
        Variable::Temporary(d) => named.checked_add(d as usize),
    }
}

/// A variable is marked, where it has a place.
fn mark(marks: &mut Vec<bool>, named: usize, x: Variable)
    ensures { marks.new.items ≡ slice_set marks.old.items (homes.column named x) true }
{
    if let Some(c) = column(named, x) {
        if c < marks.len() {
            marks[c] = true;
        }
    }
}

/// All of these are marked.
fn mark_all(marks: &mut Vec<bool>, named: usize, live: &[Live])
    ensures { marks.new.items ≡ marked_with named marks.old.items (map (λ l. l.variable) live.now) }
{
    for one in live {
        mark(marks, named, one.variable);
    }
}

/// Whether a variable is one of these.
fn is_live(x: Variable, live: &[Live]) -> bool
    ensures { result ≡ is_among x (map (λ l. l.variable) live.now) }
{
    for one in live {
        if is_same(x, one.variable) {
            return true;
        }
    }
    false
}

/// What is live at a place of the code; nothing behind its end.
#[tactic(auto, using(crate::proofs::Lines::live_there, crate::proofs::Lines::none_there))]
fn live_at(code: &Seq<Line>, p: usize) -> &[Live]
    ensures { map (λ l. l.variable) result.now ≡ spec.live_first (drop p code.now) }
{
    match code.get(p) {
        Some(line) => line.live.as_slice(),
        None => &[],
    }
}

/// Those that meet a variable behind a write are marked.
#[tactic(auto, using(crate::proofs::Marking::marked_append))]
fn mark_behind(marks: &mut Vec<bool>, named: usize, x: Variable, y: Variable, behind: &[Live])
    ensures { marks.new.items
        ≡ marked_with named marks.old.items (spec.met_behind x (Some y) (map (λ l. l.variable) behind.now)) }
{
    if is_same(x, y) {
        mark_all(marks, named, behind);
    }
    if is_live(x, behind) {
        mark(marks, named, y);
    }
}

/// Those that meet a variable at a line, or just behind it where these are live, are marked.
#[tactic(auto, using(crate::proofs::Marking::marked_append))]
fn mark_line(marks: &mut Vec<bool>, named: usize, x: Variable, line: &Line, behind: &[Live])
    ensures { marks.new.items ≡ marked_with named marks.old.items
        (spec.all_if (is_among x (spec.live_in line.now)) (spec.live_in line.now)
        ++ spec.met_behind x (writes line.now.op) (map (λ l. l.variable) behind.now)) }
{
    let live = line.live.as_slice();
    if is_live(x, live) {
        mark_all(marks, named, live);
    }
    if let Some(y) = written(&line.op) {
        mark_behind(marks, named, x, y, behind);
    }
}

/// The marks of all variables that meet one, by their columns. The error is want of memory.
pub(crate) fn row_of(
    alloc: Global,
    code: &Seq<Line>,
    named: usize,
    count: usize,
    x: Variable,
) -> Result<Vec<bool>, AllocError>
    ensures { IfOk result (λ row. row.items ≡ row_of named count code.now x) }
{
    let mut marks = vec![in alloc; false; count]?;
    for q in 0..code.len() {
        mark_line(&mut marks, named, x, code.at(q), live_at(code, q + 1));
    }
    Ok(marks)
}
