//! What holds of each activation of a sound world.
ghost use Rattle.ec_activations.specs.RestingLaws.{EachRestsAtAnEntry, OperandsAreHeld, WaitsForTheResult};

/// Each activation of a sound world rests at a stop that has an entry in the table of its operation.
pub fn each_rests_at_an_entry()
    ensures { EachRestsAtAnEntry }
{}

/// The operands of a pending stop are what the frame holds for them, the own object in the place of the first where the action is
/// on it.
pub fn operands_are_held()
    ensures { OperandsAreHeld }
{}

/// Where code goes on behind a stop, the variable that waits there is the one that the entry has for the result.
pub fn waits_for_the_result()
    ensures { WaitsForTheResult }
{}
