//! What holds of the words of steps on MIPS I.
ghost use Rattle.mips_code.specs.Laws.{FarSpeaks, NearSpeaks};

/// They do what the steps do, where no target is far.
pub fn near_speaks()
    ensures { NearSpeaks }
{}

/// And where targets may be far.
pub fn far_speaks()
    ensures { FarSpeaks }
{}
