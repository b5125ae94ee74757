//! Where the names of types stand in a text.
#![tactic(auto)]

ghost use Rattle.ec_places.specs.Laws.{NamesRise};

/// The names of the types that a program of a text declares stand one behind the other in the text.
pub fn names_rise()
    ensures { NamesRise }
{}
