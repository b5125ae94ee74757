//! What holds of each class, and of each activation, that goes in a parcel.
ghost use Rattle.ec_parcels.specs.MoverLaws.{ActivationsComeWhole, EachPartHasItsStop, NumbersAreOfOneClass};

/// The number of a class is that of no other class, and a class has no other number: so an object that comes is of the class of the one
/// that went.
pub fn numbers_are_of_one_class()
    ensures { NumbersAreOfOneClass }
{}

/// The part of an activation has its stop, and a value for each variable whose value goes, by the tables of the program for each kind: so
/// it can come to a node of any kind.
pub fn each_part_has_its_stop()
    ensures { EachPartHasItsStop }
{}

/// An activation comes to a node of any kind as it went from another.
pub fn activations_come_whole()
    ensures { ActivationsComeWhole }
{}
