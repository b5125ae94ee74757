//! What nodes show is what is seen of them.
ghost use Rattle.ec_cluster.specs.Laws.{WhatIsSeenIsThere, WhatIsShownCanBeSeen, WhatIsShownIsSeen};

/// The objects that the words of nodes spell are those of the world that the nodes show, and a reader of the nodes sees this world.
pub fn what_is_shown_is_seen()
    ensures { WhatIsShownIsSeen }
{}

/// Nodes that show a world of the program that they run can be seen.
pub fn what_is_shown_can_be_seen()
    ensures { WhatIsShownCanBeSeen }
{}

/// Each object that is seen is at its place.
pub fn what_is_seen_is_there()
    ensures { WhatIsSeenIsThere }
{}
