//! What nodes show while objects and activations travel between them.
ghost use Rattle.ec_things.specs.TravellingLaws.{NothingTravels, OneLands, OneTakesOff, SameTravellers, TravellersAreNowhere};
ghost use Rattle.ec_things.specs.TravellingLaws.{TravellersMayChange, TravellersMayGoElsewhere};

/// Where nothing travels, the nodes show the world.
pub fn nothing_travels<A>()
    ensures { NothingTravels A }
{}

/// A node takes away an object or an activation: it travels now, and all else is shown as before.
pub fn one_takes_off<A>()
    ensures { OneTakesOff A }
{}

/// A node puts an object or an activation that travels: it stands there now, and all else is shown as before.
pub fn one_lands<A>()
    ensures { OneLands A }
{}

/// What travels may get another place.
pub fn travellers_may_go_elsewhere<A>()
    ensures { TravellersMayGoElsewhere A }
{}

/// An object that travels may change.
pub fn travellers_may_change<A>()
    ensures { TravellersMayChange A }
{}

/// It matters only of which owners it is said that they travel, not how it is told.
pub fn same_travellers<A>()
    ensures { SameTravellers A }
{}

/// What travels has no blocks at any node.
pub fn travellers_are_nowhere<A>()
    ensures { TravellersAreNowhere A }
{}
