//! What keeps objects where the events of worlds have them.
ghost use Rattle.ec_rooms.specs.PlacingLaws.{DoingsKeepPlaces, EachIsPlaced, FirstArePlaced, MovesKeepPlaces, SettlingKeepsPlaces};
ghost use Rattle.ec_rooms.specs.PlacingLaws.{SilentStepsKeepPlaces};

/// The events of a world place its objects and no others, at the start and after each entry.
pub fn each_is_placed()
    ensures { EachIsPlaced }
{}

/// What has just been loaded is where the first world has it.
pub fn first_are_placed()
    ensures { FirstArePlaced }
{}

/// The first step of an action that is no move keeps objects where events have them.
pub fn doings_keep_places()
    ensures { DoingsKeepPlaces }
{}

/// So does the second step.
pub fn settling_keeps_places()
    ensures { SettlingKeepsPlaces }
{}

/// A group that has gone to a node is where the event of its move has it.
pub fn moves_keep_places()
    ensures { MovesKeepPlaces }
{}

/// Silent steps keep objects where events have them.
pub fn silent_steps_keep_places()
    ensures { SilentStepsKeepPlaces }
{}
