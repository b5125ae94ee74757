//! Objects and activations go from a node.
ghost use Rattle.std.specs.Prelude.{None};
ghost use Rattle.ec_carrying.specs.Steps.{AreKept, OnePut, TakenOff};
ghost use Rattle.ec_cluster.specs.Steps.{KeptAt};
ghost use Rattle.ec_world.specs.declared.key.Key.TheVariants.{Frame, Object};
ghost use Rattle.ec_parcels.specs.Owners.{frame_keys, object_keys};
ghost use Rattle.ec_things.specs.Texts.{NoTexts};

use ec_base::list::Seq;
use ec_cluster::cluster::Cluster;
use ec_node_frames::frames::close_frame;
use ec_parcels::mover::objects::remove_object;
use ec_wire::parcel::{ActivationPart, ObjectPart};
use ec_world::value::{NodeNo, Oid, Pid};

/// Objects that are at a node go from there. Takes no memory.
pub(crate) fn take_objects(cluster: &mut Cluster, from: NodeNo, objects: &Seq<ObjectPart>)
    requires { AreKept cluster.old from (object_keys objects.now) }
    ensures { TakenOff cluster.old cluster.new from (object_keys objects.now) }
{
    for i in 0..objects.len() {
        let object = objects.at(i);
        take_object(cluster, from, object.number);
    }
}

/// Activations that are at a node go from there. Takes no memory.
pub(crate) fn take_activations(
    cluster: &mut Cluster,
    from: NodeNo,
    activations: &Seq<ActivationPart>,
)
    requires { AreKept cluster.old from (frame_keys activations.now) }
    ensures { TakenOff cluster.old cluster.new from (frame_keys activations.now) }
{
    for i in 0..activations.len() {
        let activation = activations.at(i);
        take_activation(cluster, from, activation.process, activation.depth);
    }
}

/// An object that is at a node goes from there.
fn take_object(cluster: &mut Cluster, from: NodeNo, oid: Oid)
    requires { KeptAt cluster.old (Object oid) from }
    ensures { OnePut NoTexts cluster.old cluster.new from (Object oid) None }
{
    remove_object(cluster.nodes.at_mut(from as usize), oid);
}

/// An activation that is at a node goes from there.
fn take_activation(cluster: &mut Cluster, from: NodeNo, process: Pid, depth: u32)
    requires { KeptAt cluster.old (Frame process depth) from }
    ensures { OnePut NoTexts cluster.old cluster.new from (Frame process depth) None }
{
    close_frame(cluster.nodes.at_mut(from as usize), process, depth);
}
