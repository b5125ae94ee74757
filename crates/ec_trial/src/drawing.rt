//! Drawing what a trial is made of.
ghost use Rattle.std.specs.Prelude.{◌≡◌, ◌<◌, ◌≤◌, IfOk, OnOk};
ghost use Rattle.ec_trial.specs.Draws.{draws_of_entry, drawn, drawn_from, entries_from, entry_count, entry_from};
ghost use Rattle.ec_trial.specs.Draws.{kind_of, kinds_from, state_after};

use crate::drawn::Drawn;
use crate::generator::Generator;
use ec_base::list::Seq;
use ec_world::node::Kind;
use ec_world::run::RunEntry;
use std::alloc::{AllocError, Global};

/// How many entries a schedule has.
const ENTRIES: u32 = 300;

/// What is drawn from a number. The error is want of memory.
pub(crate) fn draw_all(alloc: Global, number: u32) -> Result<Drawn, AllocError>
    ensures { IfOk result (λ drawn. drawn ≡ drawn_from number) }
{
    let mut generator = Generator { state: number };
    let workers = 2 + generator.draw(7);
    let rounds = 100 * (1 + generator.draw(20));
    let start = generator.draw(1000);
    let nodes = 1 + generator.draw(6);
    let kinds = draw_kinds(alloc, nodes, &mut generator)?;
    let entries = draw_entries(alloc, workers, nodes, &mut generator)?;
    Ok(Drawn {
        workers,
        rounds,
        start,
        nodes,
        kinds,
        entries,
    })
}

/// The kinds of so many nodes.
fn draw_kinds(alloc: Global, nodes: u32, generator: &mut Generator) -> Result<Seq<Kind>, AllocError>
    ensures kinds { IfOk result (λ kinds. kinds ≡ kinds_from nodes generator.old.state) }
    ensures state { OnOk result (generator.new.state ≡ state_after nodes generator.old.state) }
{
    let mut kinds = Seq::new(alloc);
    for _ in 0..nodes {
        kinds.push(draw_kind(generator))?;
    }
    Ok(kinds)
}

/// One of both kinds.
fn draw_kind(generator: &mut Generator) -> Kind
    ensures kind { result ≡ kind_of (drawn 1 2 generator.old.state) }
    ensures state { generator.new.state ≡ state_after 1 generator.old.state }
{
    if generator.draw(2) == 0 {
        Kind::Riscv
    } else {
        Kind::Mips
    }
}

/// The entries for so many workers and nodes.
fn draw_entries(
    alloc: Global,
    workers: u32,
    nodes: u32,
    generator: &mut Generator,
) -> Result<Seq<RunEntry>, AllocError>
    requires few_workers { workers ≤ 8 }
    requires some_nodes { 0 < nodes }
    requires few_nodes { nodes ≤ 6 }
    ensures { IfOk result (λ entries. entries ≡ entries_from entry_count workers nodes generator.old.state) }
{
    let mut entries = Seq::new(alloc);
    for _ in 0..ENTRIES {
        entries.push(draw_entry(workers, nodes, generator))?;
    }
    Ok(entries)
}

/// An entry for so many workers and nodes: a move of one of the objects that move, or a turn of one of the processes.
fn draw_entry(workers: u32, nodes: u32, generator: &mut Generator) -> RunEntry
    requires few_workers { workers ≤ 8 }
    requires some_nodes { 0 < nodes }
    requires few_nodes { nodes ≤ 6 }
    ensures entry { result ≡ entry_from workers nodes generator.old.state }
    ensures state { generator.new.state ≡ state_after (draws_of_entry generator.old.state) generator.old.state }
{
    if generator.draw(5) == 0 {
        let o = nodes + 1 + generator.draw(2 * workers + 2);
        let k = generator.draw(nodes);
        RunEntry::MoveOf { o, k }
    } else {
        RunEntry::TurnOf(generator.draw(workers + 1))
    }
}
