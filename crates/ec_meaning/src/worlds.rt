//! The world in which a program begins.
ghost use Rattle.std.specs.Prelude.{◌≡◌, ◌<◌, IfOk};
ghost use Rattle.ec_meaning.specs.Activations.{source_meaning};
ghost use Rattle.ec_world.specs.Run as spec;

use crate::activation::SourceActivation;
use ec_base::list::Seq;
use ec_world::activation::Activation;
use ec_world::class::Classes;
use ec_world::process::{Proc, ProcStatus};
use ec_world::start::first_common;
use ec_world::value::ValueType;
use ec_world::world::World;
use std::alloc::{AllocError, Global};

/// The world on `n` nodes (fewer than 2^32 - 1) with these classes and constants of these types, in which process 0 is about
/// to run operation 0. The error is want of memory.
pub(crate) fn first_world(
    alloc: Global,
    n: u32,
    classes: Classes,
    globals: &[ValueType],
) -> Result<World<SourceActivation>, AllocError>
    requires { n < 4294967295 }
    ensures { IfOk result (λ w. w ≡ spec.first_world source_meaning n classes globals.now) }
{
    let mut activations = Seq::new(alloc);
    activations.push(SourceActivation::begin(alloc, 0, n + 1, Seq::new(alloc))?)?;
    let mut processes = Seq::new(alloc);
    processes.push(Proc {
        activations,
        status: ProcStatus::Ready,
    })?;
    Ok(World {
        common: first_common(alloc, n, classes, globals)?,
        processes,
    })
}
