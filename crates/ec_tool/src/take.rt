//! A source is taken to nodes, where it is run by machine code or its meaning is worked out.
ghost use Rattle.std.specs.Prelude.{◌≡◌, IfOk};
ghost use Rattle.ec_compile.specs.Texts.{IsOfText};
ghost use Rattle.ec_meaning.specs.Sources.{source_of};
ghost use Rattle.ec_native_run.specs.Runs.{AreNodes, RunsTo};
ghost use Rattle.ec_plain.specs.Plain.{IsPlainRun};
ghost use Rattle.ec_check.specs.Accepted.{HasCore};
ghost use Rattle.ec_tool.specs.Sources.{IsProgramText};
ghost use Rattle.ec_tool.specs.Taking.{WorkComesTo, source_in, vectors_of};

use crate::source::Accepted;
use ec_meaning::source::Program;
use ec_native_run::network::Network;
use ec_native_run::run as native;
use ec_plain::run as plain;
use ec_report::answer::Answer;
use ec_vector_types::written::written_vectors;
use ec_world::node::NodeSpec;
use ec_world::run::Entry;
use std::alloc::{AllocError, Global};

/// What is asked of a source on nodes: its run by machine code, or its plain meaning.
#[derive(Clone, Copy, PartialEq, Eq, Debug)]
pub(crate) enum Work {
    Run,
    Mean,
}

/// What a source, with the tokens and the core of its program, comes to on nodes along a schedule, within so many entries.
pub(crate) fn come_to_end(
    alloc: Global,
    work: Work,
    found: &Accepted,
    source: &[u8],
    specs: &[NodeSpec],
    schedule: &[Entry],
    budget: u32,
    net: &mut Network,
) -> Result<Answer, AllocError>
    requires program { IsProgramText source.now found.now.tokens found.now.checked.program }
    requires core { HasCore found.now.checked.program found.now.checked.table found.now.checked.core }
    requires nodes { AreNodes specs.now }
    ensures { IfOk result (λ answer. WorkComesTo work (source_in source.now found.now.checked) (vectors_of found.now) specs.now schedule.now
        budget net.old net.new answer.status answer.text.items) }
{
    let checked = &found.checked;
    let program = Program::new(alloc, source, &checked.table, &checked.core)?;
    match work {
        Work::Run => {
            let written = written_vectors(alloc, &checked.table, found.tokens.as_slice())?;
            let types = written.as_slice();
            native::run(alloc, &program, types, specs, schedule, budget.into(), net)
        }
        Work::Mean => plain::run(alloc, program, specs, schedule, budget.into()),
    }
}
