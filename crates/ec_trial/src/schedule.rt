//! The schedule of a trial.
ghost use Rattle.std.specs.Prelude.{◌≡◌, ◌++◌, IfOk, OnOk, string_bytes};
ghost use Rattle.ec_trial.specs.Texts.{entry_line, schedule_text};

use crate::drawn::Drawn;
use ec_base::list::Seq;
use ec_world::run::RunEntry;
use ec_world::value::Text;
use std::alloc::{AllocError, Global};

/// The schedule by what is drawn. The error is want of memory.
#[tactic(auto, unfolding(crate::specs::Texts::schedule_text))]
pub(crate) fn write_schedule(alloc: Global, drawn: &Drawn) -> Result<Text, AllocError>
    ensures { IfOk result (λ text. text ≡ schedule_text drawn.now) }
{
    let mut out = String::new(alloc);
    for entry in drawn.entries.as_slice() {
        push_entry(*entry, &mut out)?;
    }
    Ok(Seq::from_vec(out.into_bytes()))
}

/// The line of an entry.
fn push_entry(entry: RunEntry, out: &mut String) -> Result<(), AllocError>
    ensures { OnOk result (string_bytes out.new ≡ string_bytes out.old ++ entry_line entry) }
{
    match entry {
        RunEntry::TurnOf(p) => writeln!(out, "turn {p}"),
        RunEntry::MoveOf { o, k } => writeln!(out, "move {o} to {k}"),
    }
}
