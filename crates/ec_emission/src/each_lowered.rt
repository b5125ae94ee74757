//! What holds of each source.
ghost use Rattle.ec_emission.specs.EachLoweredLaws.{EachSourceIsLowered};

/// It is lowered to a program, whatever memory there is.
pub fn each_source_is_lowered()
    ensures { EachSourceIsLowered }
{}
