//! What holds of conformity, in every program with at most 1,000 types whose operations take and give no unknown type.
ghost use Rattle.ec_types.specs.Laws.{ConformityComposes, EachTypeConformsToItself, EachTypeFitsItself, FittingComposes};

/// A type that conforms to one which conforms to a third conforms to the third.
pub fn conformity_composes()
    ensures { ConformityComposes }
{}

/// Each type of a program conforms to itself.
pub fn each_type_conforms_to_itself()
    ensures { EachTypeConformsToItself }
{}

/// A type that fits where one is wanted which fits where a third is fits there too.
pub fn fitting_composes()
    ensures { FittingComposes }
{}

/// Each type of a program fits where it is wanted itself.
pub fn each_type_fits_itself()
    ensures { EachTypeFitsItself }
{}
