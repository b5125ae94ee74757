//! The form of the core, and the types of the program, of every program that breaks no static rule.
ghost use Rattle.ec_core_laws.specs.CoreShapesLaws.{EachCoreIsFormed, EachDeclaredTypeIsKnown, EachTableIsSmall};

/// Each chain has a link, no view is to nil, and each type in code, of a place or of a class is one of the program.
pub fn each_core_is_formed()
    ensures { EachCoreIsFormed }
{}

/// No operation that a type declares takes or gives an unknown type.
pub fn each_declared_type_is_known()
    ensures { EachDeclaredTypeIsKnown }
{}

/// There are at most 1,000 types.
pub fn each_table_is_small()
    ensures { EachTableIsSmall }
{}
