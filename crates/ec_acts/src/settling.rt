//! An outcome is settled: what becomes of processes is done to nodes and rows.
ghost use Rattle.std.specs.Prelude.{◌≡◌, List, OnOk};
ghost use Rattle.ec_cluster.specs.Cluster.{CodeWorld};
ghost use Rattle.ec_cluster.specs.Steps.{Changes};
ghost use Rattle.ec_cluster.specs.Frames.{HasImages};
ghost use Rattle.ec_code.specs.Typing.{Declared};
ghost use Rattle.ec_code.specs.declared.activation.CodeActivation.{CodeActivation};
ghost use Rattle.ec_acts.specs.Settling.{CanBeSettled, SettlesIn};
ghost use Rattle.ec_acts.specs.Taking.{CanFollow, with_section};
ghost use Rattle.ec_cluster.specs.SystemSteps.{Settles};
ghost use Rattle.ec_cluster.specs.Systems.{Mirrors, Strings};

use crate::effects::take_effect;
use crate::giving::give_up;
use crate::rows::{number_of, ready_each, ready_granted, row_after};
use ec_base::list::Seq;
use ec_cluster::frames::begin;
use ec_cluster::system::{ProcessRow, System};
use ec_world::doing::{Outcome, Section};
use ec_world::process::ProcStatus;
use ec_world::stop::Who;
use ec_world::value::Values;
use std::alloc::{AllocError, Global};

/// What becomes of processes once the doing of an action is done: the effect comes to the activation that acts, which is on top of its
/// process; who was granted a monitor is Ready, also by what a process that fails gives up; and a section begins as a new process. The
/// error is want of memory, a depth or a number of a process of more than 32 bits, or a node with 2^32 - 1 texts or references. Nothing
/// is said of the system after an error.
pub fn settle(
    system: &mut System,
    alloc: Global,
    who: Who,
    outcome: Outcome,
) -> Result<(), AllocError>
    requires { CanBeSettled system.old who outcome }
    ensures settles { OnOk result ((d : Declared) (w : CodeWorld) (below : List CodeActivation) (top : CodeActivation) →
        SettlesIn d system.old w below top who outcome → Settles system.old system.new w who.process below top outcome) }
    ensures whereabouts { OnOk result (system.new.cluster.whereabouts ≡ system.old.cluster.whereabouts) }
{
    let Outcome {
        effect,
        granted,
        started,
    } = outcome;
    let row = row_after(who.depth, &effect)?;
    let freed = give_up(&mut system.cluster, alloc, who, &effect)?;
    take_effect(&mut system.cluster, alloc, who, effect)?;
    system.processes.set(who.process as usize, row);
    ready_granted(&mut system.processes, granted);
    ready_each(&mut system.processes, freed.as_slice());
    follow(system, alloc, started)
}

/// A section begins as a new process, behind the others, if there is one. The error is want of memory, a number of a process of more than
/// 32 bits, or a node with 2^32 - 1 texts or references.
fn follow(system: &mut System, alloc: Global, started: Option<Section>) -> Result<(), AllocError>
    requires { CanFollow system.old started }
    ensures mirrors { OnOk result ((d : Declared) (w : CodeWorld) → HasImages d system.old.cluster → Mirrors system.old w →
        Mirrors system.new (with_section w started)) }
    ensures changes { OnOk result ((d : Declared) (w : CodeWorld) → HasImages d system.old.cluster → Mirrors system.old w →
        Changes (Strings system.new.cluster (with_section w started)) system.old.cluster system.new.cluster) }
    ensures whereabouts { system.new.cluster.whereabouts ≡ system.old.cluster.whereabouts }
{
    let Some(section) = started else {
        return Ok(());
    };
    let process = number_of(system.processes.len())?;
    let none: Values = Seq::new(alloc);
    begin(
        &mut system.cluster,
        alloc,
        process,
        0,
        section.operation,
        section.own,
        none.as_slice(),
    )?;
    system.processes.push(ProcessRow {
        activations: 1,
        status: ProcStatus::Ready,
    })
}
