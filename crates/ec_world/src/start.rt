//! The world in which a program begins.
ghost use Rattle.std.specs.Prelude.{◌≡◌, ◌++◌, ◌∷◌, ◌<◌, [], IfOk, replicate};
ghost use Rattle.ec_world.specs.Run as spec;
ghost use Rattle.ec_world.specs.Values.{defaults_of};

use crate::activation::Activation;
use crate::class::{ClassNo, Classes};
use crate::common::Common;
use crate::object::ObjectRec;
use crate::process::{Proc, ProcStatus};
use crate::running::Running;
use crate::silent::Silent;
use crate::value::{ValueType, Values};
use crate::world::World;
use ec_base::list::Seq;
use std::alloc::{AllocError, Global};

impl<A: Activation, S: Silent<A>> Running<A, S> {
    /// The world on `n` nodes (fewer than 2^32 - 1) with these classes and constants of these types, in which process 0 is about
    /// to run operation 0. The error is want of memory.
    pub fn start(
        alloc: Global,
        code: S,
        n: u32,
        classes: Classes,
        globals: &[ValueType],
    ) -> Result<Running<A, S>, AllocError>
        requires { n < 4294967295 }
        ensures code { IfOk result (λ r. r.code ≡ code) }
        ensures world { IfOk result (λ r. r.world ≡ spec.first_world A.meaning n classes globals.now) }
    {
        let mut activations = Seq::new(alloc);
        activations.push(A::begin(alloc, 0, n + 1, Seq::new(alloc))?)?;
        let mut processes = Seq::new(alloc);
        processes.push(Proc {
            activations,
            status: ProcStatus::Ready,
        })?;
        let common = first_common(alloc, n, classes, globals)?;
        let world = World { common, processes };
        Ok(Running { code, world })
    }
}

/// What the world on `n` nodes has beside its processes at first. The error is want of memory.
pub fn first_common(
    alloc: Global,
    n: u32,
    classes: Classes,
    globals: &[ValueType],
) -> Result<Common, AllocError>
    ensures { IfOk result (λ c. c ≡ spec.first_common n classes globals.now) }
{
    Ok(Common {
        nodes: n,
        classes,
        objects: first_objects(alloc, n)?,
        globals: defaults(alloc, globals)?,
        output: Seq::new(alloc),
        events: Seq::new(alloc),
    })
}

/// The objects of the nodes, and the program's own. The error is want of memory.
fn first_objects(alloc: Global, n: u32) -> Result<Seq<ObjectRec>, AllocError>
    ensures { IfOk result (λ os. os ≡ replicate n spec.node_object ++ spec.program_object ∷ []) }
{
    let mut objects = node_objects(alloc, n)?;
    objects.push(ObjectRec {
        class: ClassNo::Program,
        fields: Seq::new(alloc),
        fixed: false,
        monitor: None,
    })?;
    Ok(objects)
}

/// The error is want of memory.
fn node_objects(alloc: Global, n: u32) -> Result<Seq<ObjectRec>, AllocError>
    ensures { IfOk result (λ os. os ≡ replicate n spec.node_object) }
{
    let mut objects = Seq::new(alloc);
    for _k in 0..n {
        objects.push(ObjectRec {
            class: ClassNo::Node,
            fields: Seq::new(alloc),
            fixed: true,
            monitor: None,
        })?;
    }
    Ok(objects)
}

/// The defaults of these types. The error is want of memory.
fn defaults(alloc: Global, types: &[ValueType]) -> Result<Values, AllocError>
    ensures { IfOk result (λ vs. vs ≡ defaults_of types.now) }
{
    let mut values = Seq::new(alloc);
    for of in types {
        values.push(of.default_value(alloc))?;
    }
    Ok(values)
}
