//! How the core of a program that breaks no static rule makes its objects.
ghost use Rattle.ec_core_laws.specs.CoreMakingsLaws.{EachCoreIsMadeRight};

/// Where the places of the types' names rise, constructors make objects of classes without parameters, and `create` those
/// of classes that capture nothing. What makes an object and what is a process section has no parameters and no result.
pub fn each_core_is_made_right()
    ensures { EachCoreIsMadeRight }
{}
