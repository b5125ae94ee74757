//! What an accepted source is lowered to, in range.
ghost use Rattle.ec_emission_laws.specs.SmallProgramsLaws.{LoweredIsSmall, LoweredTextIsSmall};

/// Each number in the code is in range, and each literal, where those in the source are.
pub fn lowered_is_small()
    ensures { LoweredIsSmall }
{}

/// So it is of each text.
pub fn lowered_text_is_small()
    ensures { LoweredTextIsSmall }
{}
