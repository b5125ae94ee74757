//! Laws of the meaning.
ghost use Rattle.ec_meaning.specs.Events.{NoTurnReadsEvents};

/// No turn's world depends on what happened before it, and so on no place, but for the events that it keeps.
#[tactic(auto, using(crate::proofs::EventsAside::no_turn_reads_events))]
pub fn no_turn_reads_events()
    ensures { NoTurnReadsEvents }
{}
