//! Objects at a node are fixed there, or no more.
ghost use Rattle.std.specs.Prelude.{IsSome, Some};
ghost use Rattle.ec_world.specs.declared.key.Key.TheVariants.{Object as OfObject};
ghost use Rattle.ec_stores.specs.Node.{store_of};
ghost use Rattle.ec_things.specs.Texts.{GetsTexts, NoTexts};
ghost use Rattle.ec_things.specs.Things.{Puts, Shown, object_thing};
ghost use Rattle.ec_world.specs.declared.object.ObjectRec.{ObjectRec};

use ec_stores::node::NodeStore;
use ec_world::value::Oid;

/// An object that is here is fixed from now on, or no more.
pub fn set_flag(node: &mut NodeStore, oid: Oid, fixed: bool)
    requires { IsSome ((store_of node.old).row (OfObject oid)) }
    ensures puts { (o : ObjectRec) → Shown (store_of node.old) (OfObject oid) (object_thing oid o) →
        Puts (store_of node.old) (store_of node.new) (OfObject oid) (Some (object_thing oid (record o { fixed = fixed }))) }
    ensures gets { GetsTexts NoTexts (store_of node.old) (store_of node.new) }
{
    node.set_fixed(oid, fixed);
    let _kind = node.kind();
}
