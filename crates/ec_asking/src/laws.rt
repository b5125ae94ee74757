//! What a system runs is seen of its nodes.
ghost use Rattle.ec_asking.specs.Laws.{WhatIsShownBareIsBare, WhatRunsCanBeSeen, WhatRunsIsSeen};

/// Nodes show a world that their system runs as one of their program, where no object of the program itself has fields.
pub fn what_runs_is_seen()
    ensures { WhatRunsIsSeen }
{}

/// Nodes of a system that runs some world can be seen, where no object of the program itself has fields.
pub fn what_runs_can_be_seen()
    ensures { WhatRunsCanBeSeen }
{}

/// Where no object of the program itself has fields in a world, none has on the nodes that show it.
pub fn what_is_shown_bare_is_bare()
    ensures { WhatIsShownBareIsBare }
{}
