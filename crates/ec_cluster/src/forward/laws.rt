//! What the whereabouts of objects have to do with the events of a world.
ghost use Rattle.ec_cluster.specs.Events.{EventsGivePlacement, EventsGivePlaces, FirstObjectsAreAt};

/// Noting the objects that are there first leads to the first places.
pub fn first_objects_are_at()
    ensures { FirstObjectsAreAt }
{}

/// Noting each event of a list leads from some places to those after these events.
pub fn events_give_places()
    ensures { EventsGivePlaces }
{}

/// Noting the objects that are there first, and then each event of a list, leads to the placement after these events.
pub fn events_give_placement()
    ensures { EventsGivePlacement }
{}
