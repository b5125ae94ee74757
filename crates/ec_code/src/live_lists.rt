//! What holds of each place of code.
ghost use Rattle.ec_code.specs.LiveListsLaws.{EachPlaceHasItsList};

/// It has its list of live variables, whatever memory there is.
pub fn each_place_has_its_list()
    ensures { EachPlaceHasItsList }
{}
