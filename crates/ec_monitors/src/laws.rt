//! What holds of the acts on every monitor.
ghost use Rattle.ec_monitors.specs.Laws.{FreeIsEmpty, HasDepths, KeptByEachAct, NobodyIsLost};
ghost use Rattle.ec_monitors.specs.Standing.{StandsOnce};

/// A process stands at most once in a monitor, as its holder or as one that waits.
pub fn each_stands_once()
    ensures { KeptByEachAct StandsOnce }
{}

/// Where nobody holds a monitor, nobody waits to enter it or to go on in it.
pub fn a_free_monitor_is_empty()
    ensures { KeptByEachAct FreeIsEmpty }
{}

/// Each process that holds a monitor, or waits to go on in it, has entered it at least once.
pub fn each_depth_is_at_least_one()
    ensures { KeptByEachAct HasDepths }
{}

/// Each act keeps who stands in a monitor, but for who comes in and who goes for good.
pub fn nobody_is_lost()
    ensures { NobodyIsLost }
{}
