//! What is told of parcels that don't fit.
ghost use Rattle.ec_parcel_fits.specs.Unfitting.{CausesAreReasons};

/// What is told why contents don't fit is a reason.
pub fn causes_are_reasons()
    ensures { CausesAreReasons }
{}
