//! The stops of an operation, each with what is live there.
ghost use Rattle.std.specs.Prelude.{◌≡◌, suc, ◌<◌, ◌≤◌, ◌^◌, ◌++◌, IfOk, OnOk, length, map};
ghost use Rattle.ec_code.specs.Fine.{live_at};
ghost use Rattle.ec_machine_code.specs.Stops.{live_list};
ghost use Rattle.ec_code.specs.Live as live;
ghost use Rattle.ec_code.specs.Marks.{is_written};
ghost use Rattle.ec_generate.specs.Entries as spec;

use crate::table::StopEntry;
use ec_base::list::Seq;
use ec_code::code::{Line, Live, Op, StopRow, Variable};
use ec_code::steps::is_same;
use ec_types::conform::static_type::StaticType;
use ec_world::stop::Stop;
use std::alloc::{AllocError, Global};

/// A variable with the type that it has among live ones; unknown where it isn't live.
fn typed(live: &Seq<Live>, x: Variable) -> Live
    ensures { result ≡ spec.typed live.now x }
{
    for l in live.as_slice() {
        if is_same(l.variable, x) {
            return Live {
                variable: x,
                of: l.of,
            };
        }
    }
    Live {
        variable: x,
        of: StaticType::Unknown,
    }
}

/// The variables that have a stop's operands, each with its type. The error is want of memory.
fn operands_of(alloc: Global, live: &Seq<Live>, row: &StopRow) -> Result<Seq<Live>, AllocError>
    ensures { IfOk result (λ operands. operands ≡ map (spec.typed live.now) row.now.operands) }
{
    let mut operands = Seq::new(alloc);
    for x in row.operands.as_slice() {
        operands.push(typed(live, *x))?;
    }
    Ok(operands)
}

/// The variable that takes what a stop gives.
fn result_of(into: Option<Variable>, gives: Option<StaticType>) -> Option<Live>
    ensures { result ≡ spec.result_of into gives }
{
    match (into, gives) {
        (Some(variable), Some(of)) => Some(Live { variable, of }),
        (Some(_), None) | (None, Some(_)) | (None, None) => None,
    }
}

/// What is live behind place q of the code.
fn behind(code: &Seq<Line>, q: usize) -> &[Live]
    requires { q < length code.now }
    ensures { result.now ≡ live_at code.now (suc q) }
{
    let count = code.len();
    if q + 1 < count {
        return code.at(q + 1).live.as_slice();
    }
    &[]
}

/// What is live behind a stop at place q of the code, but for what the stop gives. The error is want of memory.
fn live_of(
    alloc: Global,
    code: &Seq<Line>,
    q: usize,
    row: &StopRow,
) -> Result<Seq<Live>, AllocError>
    requires { q < length code.now }
    ensures { IfOk result (λ live. live ≡ live_list code.now q row.now) }
{
    let mut live = Seq::new(alloc);
    if !stays(row.stop) {
        return Ok(live);
    }
    for one in behind(code, q) {
        if !is_taken(row.into, one.variable) {
            live.push(*one)?;
        }
    }
    Ok(live)
}

/// Whether code goes on behind a stop.
fn stays(stop: Stop) -> bool
    ensures { result ≡ live.stays stop }
{
    match stop {
        Stop::Return { .. } | Stop::End | Stop::Fail { .. } => false,
        _ => true,
    }
}

/// Whether a variable takes what a stop gives.
fn is_taken(into: Option<Variable>, x: Variable) -> bool
    ensures { result ≡ is_written into x }
{
    match into {
        Some(y) => is_same(y, x),
        None => false,
    }
}

/// Adds the stop at place q of the code to others, where there is one. The error is want of memory.
fn put_stop(
    alloc: Global,
    code: &Seq<Line>,
    q: usize,
    entries: &mut Seq<StopEntry>,
) -> Result<(), AllocError>
    requires there { q < length code.now }
    requires few { length code.now ≤ 2 ^ 32 }
    ensures { OnOk result (entries.new ≡ entries.old ++ spec.stop_here code.now q) }
{
    let line = code.at(q);
    let Op::Rest(row) = &line.op else {
        return Ok(());
    };
    entries.push(StopEntry {
        place: q as u32,
        operands: operands_of(alloc, &line.live, row)?,
        result: result_of(row.into, row.gives),
        live: live_of(alloc, code, q, row)?,
    })
}

/// The stops of the code of an operation. The error is want of memory.
pub(crate) fn entries_of(alloc: Global, code: &Seq<Line>) -> Result<Seq<StopEntry>, AllocError>
    requires { length code.now ≤ 2 ^ 32 }
    ensures { IfOk result (λ entries. entries ≡ spec.entries_of code.now) }
{
    let mut entries = Seq::new(alloc);
    for q in 0..code.len() {
        put_stop(alloc, code, q, &mut entries)?;
    }
    Ok(entries)
}
