//! What moves on the nodes of a network: what `Network`'s calls say of worlds, said of places.
ghost use Rattle.ec_network.specs.Places.{FixedObjectsStay, MovesBringTheGroup, NodesStay, OthersStayInTurns, TurnsBringTheGroup};

/// After a turn that moves, fixes or refixes an object, its group is where the target is, and every other object is where it was.
pub fn turns_bring_the_group()
    ensures { TurnsBringTheGroup }
{}

/// Nothing else that a turn does moves an object.
pub fn others_stay_in_turns()
    ensures { OthersStayInTurns }
{}

/// After a move by the operator the group is at the node, and every other object is where it was.
pub fn moves_bring_the_group()
    ensures { MovesBringTheGroup }
{}

/// A fixed object goes by its own refix alone.
pub fn fixed_objects_stay()
    ensures { FixedObjectsStay }
{}

/// The object of each node is at it.
pub fn nodes_stay()
    ensures { NodesStay }
{}
