//! What holds of a code without its needless no-ops.
ghost use Rattle.mips_waits.specs.Alike.{GoneGoes, KeptGoes};
ghost use Rattle.mips_waits.specs.Dropped.{DroppedFollows, DroppedHasNoLinks, DroppedIsShort, DroppedKeeps};

/// At a word that stays each step of the old code is one of the new code,
pub fn kept_goes()
    ensures { KeptGoes }
{}

/// and a no-op that is gone changes nothing.
pub fn gone_goes()
    ensures { GoneGoes }
{}

/// The code follows the code that it was.
pub fn dropped_follows()
    ensures { DroppedFollows }
{}

/// So it is faithful where that was,
pub fn dropped_keeps()
    ensures { DroppedKeeps }
{}

/// and takes no more steps from stop to stop.
pub fn dropped_is_short()
    ensures { DroppedIsShort }
{}

/// No jump's target or link becomes a value.
pub fn dropped_has_no_links()
    ensures { DroppedHasNoLinks }
{}
