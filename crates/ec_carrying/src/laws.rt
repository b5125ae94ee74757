//! Laws of what is unpacked.
ghost use Rattle.ec_carrying.specs.UnpackingLaws.{MovesAreComposed, PartsShowActivations, WhatIsUnpackedIsShown, WhatSetsOffHasRoom};

/// A store that shows what the part of an activation spells shows the activation.
pub fn parts_show_activations()
    ensures { PartsShowActivations }
{}

/// Contents that hold things of a world, unpacked, show these things.
pub fn what_is_unpacked_is_shown()
    ensures { WhatIsUnpackedIsShown }
{}

/// What is in a parcel sets off, and the parcel is unpacked: so it is carried.
pub fn moves_are_composed()
    ensures { MovesAreComposed }
{}

/// What has set off has room where it goes.
pub fn what_sets_off_has_room()
    ensures { WhatSetsOffHasRoom }
{}
