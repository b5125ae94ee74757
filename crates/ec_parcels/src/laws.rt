//! The owners in a parcel, each once, and how one of them more or less travels.
ghost use Rattle.ec_parcels.specs.Laws.{AmongIsHas, KeysAreOnce, OneFewerTravels, OneMoreTravels};

/// No owner stands twice in a parcel that keeps the rules of the wire form.
pub fn keys_are_once()
    ensures { KeysAreOnce }
{}

/// An owner is among some exactly where it stands in their list.
pub fn among_is_has()
    ensures { AmongIsHas }
{}

/// With one owner more in the list this one travels, and all others travel or stay as before.
pub fn one_more_travels()
    ensures { OneMoreTravels }
{}

/// With one owner less in a list in which none stands twice this one stays, and all others travel or stay as before.
pub fn one_fewer_travels()
    ensures { OneFewerTravels }
{}
