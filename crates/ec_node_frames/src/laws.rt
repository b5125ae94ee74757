//! What holds of each activation that goes to another node.
ghost use Rattle.ec_node_frames.specs.Laws.{OneStopOnEachKind};

/// The stop at which an activation rests has its number in the table of each kind, with the same entry there: so what goes with the
/// activation is the same at the node that it leaves and at the one to which it comes.
pub fn one_stop_on_each_kind()
    ensures { OneStopOnEachKind }
{}
