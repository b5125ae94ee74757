//! What holds of every program that breaks no static rule.
ghost use Rattle.ec_check.specs.Laws.{EachClassHasItsNumber, EachClassHasItsOperations, EachCoreIsWellTyped, EachHasItsType};
ghost use Rattle.ec_check.specs.Laws.{EachNumberIsInRange};

/// Each expression of an accepted program has its type.
pub fn each_has_its_type()
    ensures { EachHasItsType }
{}

/// Each number in the core of an accepted program is in range.
pub fn each_number_is_in_range()
    ensures { EachNumberIsInRange }
{}

/// The core of an accepted program is well typed.
pub fn each_core_is_well_typed()
    ensures { EachCoreIsWellTyped }
{}

/// The numbers of the classes of a program rise, where the places of its types' names do.
pub fn each_class_has_its_number()
    ensures { EachClassHasItsNumber }
{}

/// Each class of an accepted program has the operations of its type, where the places of its types' names rise.
pub fn each_class_has_its_operations()
    ensures { EachClassHasItsOperations }
{}
