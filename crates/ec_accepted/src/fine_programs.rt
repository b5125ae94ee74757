//! What holds of each program that a source is lowered to.
ghost use Rattle.ec_accepted.specs.FineProgramsLaws.{LoweredIsFine};

/// It is well typed, where the source is sound.
pub fn lowered_is_fine()
    ensures { LoweredIsFine }
{}
