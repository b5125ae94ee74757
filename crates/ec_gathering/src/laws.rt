//! What a move of a group between nodes comes to, and that moves that programs and the operator ask for may be done so.
ghost use Rattle.ec_gathering.specs.Laws.{AsksMayGather, GatheringIsDone, OperatorMayGather};

/// A group that an activation asks to move may go.
pub fn asks_may_gather()
    ensures { AsksMayGather }
{}

/// A group that the operator moves may go.
pub fn operator_may_gather()
    ensures { OperatorMayGather }
{}

/// A group that has gone is the doing of the move for which an activation asks.
pub fn gathering_is_done()
    ensures { GatheringIsDone }
{}
