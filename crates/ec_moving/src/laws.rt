//! What holds of moves, over any meaning of activations, and so in runs of code and of a source.
ghost use Rattle.ec_moving.specs.Code.{CodeKeepsPlaces, NodesStayInRuns};
ghost use Rattle.ec_moving.specs.Moving.{ActionBringsTheGroup, EntriesKeepNodes, FixedObjectsStay, GroupGoesTogether};
ghost use Rattle.ec_moving.specs.Moving.{MoveBringsTheGroup, NodesStay, OthersStay};
ghost use Rattle.ec_moving.specs.Source.{NodesStayInSourceRuns, SourceKeepsPlaces};

use ec_world::activation::Activation;

/// After a move the members of the group are where the target was, and every other object is where it was.
pub fn group_goes_together()
    ensures { GroupGoesTogether }
{}

/// So it is after the action of a move, fix or refix of an object whose group may go.
pub fn action_brings_the_group<A: Activation>()
    ensures { ActionBringsTheGroup A.meaning }
{}

/// A move by the operator brings the group of its object to its node, or changes nothing.
pub fn move_brings_the_group<A: Activation>()
    ensures { MoveBringsTheGroup A }
{}

/// Nothing else that a process does moves an object.
pub fn others_stay<A: Activation>()
    ensures { OthersStay A.meaning }
{}

/// A fixed object goes by its own refix alone.
pub fn fixed_objects_stay<A: Activation>()
    ensures { FixedObjectsStay A.meaning }
{}

/// The objects of nodes are fixed there at first, and after each entry after which they were before it.
pub fn entries_keep_nodes<A: Activation>()
    ensures { EntriesKeepNodes A.meaning }
{}

/// They are in each world of each run.
pub fn nodes_stay<A: Activation>()
    ensures { NodesStay A.meaning }
{}

/// No silent step of three-address code moves an object.
pub fn code_keeps_places()
    ensures { CodeKeepsPlaces }
{}

/// So the objects of nodes are fixed there in each run of code.
pub fn nodes_stay_in_runs()
    ensures { NodesStayInRuns }
{}

/// No silent step of a source moves an object.
pub fn source_keeps_places()
    ensures { SourceKeepsPlaces }
{}

/// So the objects of nodes are fixed there in each run of a source.
pub fn nodes_stay_in_source_runs()
    ensures { NodesStayInSourceRuns }
{}
