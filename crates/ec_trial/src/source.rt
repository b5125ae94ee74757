//! The source of a trial.
ghost use Rattle.std.specs.Prelude.{◌≡◌, ◌++◌, IfOk, OnOk, string_bytes};
ghost use Rattle.ec_trial.specs.Texts.{cell_class, shared_line, source_text, worker_class, worker_line, worker_lines};

use crate::drawn::Drawn;
use ec_base::list::Seq;
use ec_world::value::Text;
use std::alloc::{AllocError, Global};

/// The class of cells: a monitor over a sum.
const CELL: &str = "\
const Cell <- monitor class Cell [start : Integer]
  var sum : Integer <- start
  export operation add [k : Integer] -> [r : Integer]
    sum <- sum + k
    r <- sum
  end add
end Cell
";

/// The class of workers, before the line that ends their loop: each has a cell of its own.
const WORKER_FRONT: &str = "\
const W <- class W [id : Integer, c : Cell]
  attached var own : Cell
  initially
    own <- Cell.create[id]
  end initially
  process
    var i : Integer
    loop
";

/// The class of workers, behind the line that ends their loop: each round adds to the worker's own cell, and what that gives to the
/// shared one.
const WORKER_REST: &str = r#"      var r : Integer <- c.add[own.add[i]]
      i <- i + 1
    end loop
    stdout.putstring[id.asString || " " || own.add[0].asString || "\n"]
  end process
end W
"#;

/// The source by what is drawn. The error is want of memory.
#[tactic(auto, unfolding(crate::specs::Texts::source_text))]
pub(crate) fn write_source(alloc: Global, drawn: &Drawn) -> Result<Text, AllocError>
    ensures { IfOk result (λ text. text ≡ source_text drawn.now) }
{
    let mut out = String::new(alloc);
    push_cell_class(&mut out)?;
    push_shared(drawn.start, &mut out)?;
    push_worker_class(drawn.rounds, &mut out)?;
    push_workers(drawn.workers, &mut out)?;
    Ok(Seq::from_vec(out.into_bytes()))
}

/// The class of cells.
#[tactic(auto, unfolding(crate::specs::Texts::cell_class))]
fn push_cell_class(out: &mut String) -> Result<(), AllocError>
    ensures { OnOk result (string_bytes out.new ≡ string_bytes out.old ++ cell_class) }
{
    out.push_str(CELL)
}

/// The line of the cell that all workers share.
fn push_shared(start: u32, out: &mut String) -> Result<(), AllocError>
    ensures { OnOk result (string_bytes out.new ≡ string_bytes out.old ++ shared_line start) }
{
    writeln!(out, "const shared <- Cell.create[{start}]")
}

/// The class of workers.
#[tactic(auto, unfolding(crate::specs::Texts::worker_class))]
fn push_worker_class(rounds: u32, out: &mut String) -> Result<(), AllocError>
    ensures { OnOk result (string_bytes out.new ≡ string_bytes out.old ++ worker_class rounds) }
{
    out.push_str(WORKER_FRONT)?;
    writeln!(out, "      exit when i >= {rounds}")?;
    out.push_str(WORKER_REST)
}

/// The lines of the workers.
fn push_workers(workers: u32, out: &mut String) -> Result<(), AllocError>
    ensures { OnOk result (string_bytes out.new ≡ string_bytes out.old ++ worker_lines 0 workers) }
{
    for i in 0..workers {
        push_worker(i, out)?;
    }
    Ok(())
}

/// The line of a worker.
fn push_worker(i: u32, out: &mut String) -> Result<(), AllocError>
    ensures { OnOk result (string_bytes out.new ≡ string_bytes out.old ++ worker_line i) }
{
    writeln!(out, "const w{i} <- W.create[{i}, shared]")
}
