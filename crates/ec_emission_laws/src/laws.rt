//! What emission asks of a core holds of each well-typed one.
ghost use Rattle.ec_emission_laws.specs.Laws.{EachPartFits};

/// Each operation of a well-typed core fits, and so does the value of each constant, where each `exit` stands in a loop and
/// what is dropped gives a value or is a call.
pub fn each_part_fits()
    ensures { EachPartFits }
{}
