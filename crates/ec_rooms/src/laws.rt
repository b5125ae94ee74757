//! What holds of room at nodes that show a world.
ghost use Rattle.ec_rooms.specs.Laws.{FoundIsFull, FullIsOne, InRuns, LoadsAreFull, SameNodesHaveRoom, StepsHadRoom};

/// At most one node is the first that lacks room, and it lacks one thing.
pub fn full_is_one()
    ensures { FullIsOne }
{}

/// A load is refused where it finds no room, and only there.
pub fn loads_are_full()
    ensures { LoadsAreFull }
{}

/// Where a node is told to be full for a world to come, this finds no room there.
pub fn found_is_full()
    ensures { InRuns FoundIsFull }
{}

/// A world to which nodes have come found room at each of them.
pub fn steps_had_room()
    ensures { InRuns StepsHadRoom }
{}

/// Nodes that show another world as they are had room for it.
pub fn same_nodes_have_room()
    ensures { InRuns SameNodesHaveRoom }
{}
