//! What an effect makes of the activations of a process, at the nodes of their own objects.
ghost use Rattle.std.specs.Prelude.{◌≡◌, ◌++◌, [], ◌∷◌, List, None, OnOk, option_copied};
ghost use Rattle.ec_base.specs.Stack.{below_of, top_of};
ghost use Rattle.ec_cluster.specs.Cluster.{CodeWorld};
ghost use Rattle.ec_cluster.specs.Frames.{with_stack};
ghost use Rattle.ec_code.specs.Activations.{begun, code_meaning, finished};
ghost use Rattle.ec_code.specs.Typing.{Declared};
ghost use Rattle.ec_code.specs.declared.activation.CodeActivation.{CodeActivation};
ghost use Rattle.ec_acts.specs.Taking.{Becomes, CanBeTaken, ShowsSomeTop, ShowsTop, TakesIn, with_changed};
ghost use Rattle.ec_world.specs.World.{finish_top};
ghost use Rattle.ec_world.specs.declared.process.ProcStatus.{ProcStatus as Status};

use crate::rows::next;
use crate::seeking::own_at;
use ec_cluster::cluster::Cluster;
use ec_cluster::frames::{begin, close, finish};
use ec_world::stop::{Effect, Who};
use ec_world::value::{Oid, OpNo, Value};
use std::alloc::{AllocError, Global};

/// An effect comes to the activation on top of a process. The error is want of memory, a depth of more than 32 bits, or a node with
/// 2^32 - 1 texts or references.
pub(crate) fn take_effect(
    cluster: &mut Cluster,
    alloc: Global,
    who: Who,
    effect: Effect,
) -> Result<(), AllocError>
    requires { CanBeTaken cluster.old who effect }
    ensures { OnOk result ((d : Declared) (w : CodeWorld) (below : List CodeActivation) (top : CodeActivation) →
        TakesIn d cluster.old w below top who effect → Becomes cluster.old cluster.new (with_changed w who.process below top effect)) }
{
    match effect {
        Effect::GoesOn(given) => go_on(cluster, who, given.as_ref()),
        Effect::Calls { op, own, args } => call(cluster, alloc, who, op, own, args.as_slice()),
        Effect::Leaves(given) => leave(cluster, who, given.as_ref()),
        Effect::Blocks { .. } => go_on(cluster, who, None),
        Effect::Ends => {
            close_all(cluster, who);
            Ok(())
        }
        Effect::Fails { .. } => {
            close_all(cluster, who);
            Ok(())
        }
    }
}

/// The action of the activation on top is done, with what is given. The error is want of memory, or a node with 2^32 - 1 texts or
/// references.
fn go_on(cluster: &mut Cluster, who: Who, given: Option<&Value>) -> Result<(), AllocError>
    requires { CanBeTaken cluster.old who (Effect.GoesOn (option_copied given)) }
    ensures { OnOk result ((d : Declared) (w : CodeWorld) (below : List CodeActivation) (top : CodeActivation) (status : Status) →
        TakesIn d cluster.old w below top who (Effect.GoesOn (option_copied given.entry)) →
        Becomes cluster.old cluster.new
        (with_stack w who.process (below ++ finished top (option_copied given.entry) ∷ []) status)) }
{
    finish(cluster, who.process, who.depth, who.own, given)
}

/// The action of the activation on top is done, and a new one lies on it. The error is want of memory, a depth of more than 32 bits, or
/// a node with 2^32 - 1 texts or references.
fn call(
    cluster: &mut Cluster,
    alloc: Global,
    who: Who,
    operation: OpNo,
    own: Oid,
    arguments: &[Value],
) -> Result<(), AllocError>
    requires { CanBeTaken cluster.old who (Effect.Calls operation own arguments.now) }
    ensures { OnOk result ((d : Declared) (w : CodeWorld) (below : List CodeActivation) (top : CodeActivation) (status : Status) →
        TakesIn d cluster.old w below top who (Effect.Calls operation own arguments.now) →
        Becomes cluster.old cluster.new
        (with_stack w who.process ((below ++ finished top None ∷ []) ++ begun operation own arguments.now ∷ []) status)) }
{
    let depth = next(who.depth)?;
    begin(
        cluster,
        alloc,
        who.process,
        depth,
        operation,
        own,
        arguments,
    )?;
    finish(cluster, who.process, who.depth, who.own, None)
}

/// The activation on top goes, and the one below it gets what is given. The error is want of memory, or a node with 2^32 - 1 texts or
/// references.
fn leave(cluster: &mut Cluster, who: Who, given: Option<&Value>) -> Result<(), AllocError>
    requires { CanBeTaken cluster.old who (Effect.Leaves (option_copied given)) }
    ensures { OnOk result ((d : Declared) (w : CodeWorld) (below : List CodeActivation) (top : CodeActivation) (status : Status) →
        TakesIn d cluster.old w below top who (Effect.Leaves (option_copied given.entry)) →
        Becomes cluster.old cluster.new
        (with_stack w who.process (finish_top code_meaning (below_of below) (top_of below) (option_copied given.entry)) status)) }
{
    let depth = who.depth - 1;
    let own = own_at(cluster, who.process, depth);
    finish(cluster, who.process, depth, own, given)?;
    close(cluster, who.process, who.depth, who.own);
    Ok(())
}

/// All activations of a process go, that on top first.
fn close_all(cluster: &mut Cluster, who: Who)
    requires { ShowsSomeTop cluster.old who }
    ensures { (w : CodeWorld) (below : List CodeActivation) (top : CodeActivation) (status : Status) →
        ShowsTop cluster.old w below top who → Becomes cluster.old cluster.new (with_stack w who.process [] status) }
{
    close(cluster, who.process, who.depth, who.own);
    for i in 0..who.depth {
        let depth = who.depth - 1 - i;
        let own = own_at(cluster, who.process, depth);
        close(cluster, who.process, depth, own);
    }
}
