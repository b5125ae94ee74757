//! The laws of the wire form, each the contract of a function that does nothing.
ghost use Rattle.ec_wire.specs.Laws.{OneParcel, OneSpelling, FaultsWithin};

/// Each byte list is the bytes of one parcel at most.
pub fn bytes_have_one_parcel()
    ensures { OneParcel }
{}

/// Each parcel that keeps the rules has one byte list.
pub fn parcels_have_one_spelling()
    ensures { OneSpelling }
{}

/// The place of a fault lies within the bytes, or just at their end.
pub fn faults_lie_within()
    ensures { FaultsWithin }
{}
