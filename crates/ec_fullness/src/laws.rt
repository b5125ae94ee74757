//! What both steps of an action find on the nodes of a system.
ghost use Rattle.ec_fullness.specs.Laws.{BelowCanTake, CalleeBegins, DoesWithRoom, DoingIsThere, EntriesKeepWaiters, FirstWaitersStay};
ghost use Rattle.ec_fullness.specs.Laws.{SectionBegins, SettlesWithRoom, TopCanFinish};

/// Where an effect comes to the activation on top, this rests at an entry of its stop table and waits for what the entry gives.
pub fn top_can_finish()
    ensures { TopCanFinish }
{}

/// Where an activation leaves, there is one below, which rests at an entry of its stop table and waits for what the entry gives.
pub fn below_can_take()
    ensures { BelowCanTake }
{}

/// Where an operation is called, it has an entry on each kind, no node has an activation at its depth yet, and the object that is invoked
/// is there.
pub fn callee_begins()
    ensures { CalleeBegins }
{}

/// A section begins only behind a return, on the object of the activation that leaves, and its operation has an entry on each kind.
pub fn section_begins()
    ensures { SectionBegins }
{}

/// What a doing names is there.
pub fn doing_is_there()
    ensures { DoingIsThere }
{}

/// With room for it, what an action is to do can be done, if it is no move.
pub fn does_with_room()
    ensures { DoesWithRoom }
{}

/// Once it is done, and with room for it, what it comes to can become of processes.
pub fn settles_with_room()
    ensures { SettlesWithRoom }
{}

/// Each activation below another rests at a stop behind which code goes on: so it is in the first world.
pub fn first_waiters_stay()
    ensures { FirstWaitersStay }
{}

/// So it stays with each entry of a run.
pub fn entries_keep_waiters()
    ensures { EntriesKeepWaiters }
{}
