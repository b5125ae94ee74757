//! What lowering may rest on, in the core of every program that breaks no static rule.
ghost use Rattle.ec_core_laws.specs.Laws.{EachClassBeginsOnce, EachCountIsSmall, EachExitStandsInALoop, EachHeadingFits};
ghost use Rattle.ec_core_laws.specs.Laws.{EachNumberIsSmall, EachNumberOfATextIsSmall, EachOperationIsSmall, EachTextIsShort};
ghost use Rattle.ec_core_laws.specs.Laws.{EachTypeInCodeIsKnown, EachTypeOfAPlaceIsKnown, EachUsesItsConditions};

/// Parameters and result of each operation have variables of their own.
pub fn each_heading_fits()
    ensures { EachHeadingFits }
{}

/// Each `exit` stands in a loop of its own operation.
pub fn each_exit_stands_in_a_loop()
    ensures { EachExitStandsInALoop }
{}

/// Operations wait and signal on conditions of their own monitored class alone, and process sections don't.
pub fn each_uses_its_conditions()
    ensures { EachUsesItsConditions }
{}

/// Each class has one operation 0 and at most one process section, where the places of the types' names rise.
pub fn each_class_begins_once()
    ensures { EachClassBeginsOnce }
{}

/// Each operation is within the static rules' limits: at most 4,000 nodes, and at most 100 variables and values at one time.
pub fn each_operation_is_small()
    ensures { EachOperationIsSmall }
{}

/// There are at most 1,000 classes, object constructors among them, and at most 4,000 operations.
pub fn each_count_is_small()
    ensures { EachCountIsSmall }
{}

/// Each literal text has at most 65,535 bytes.
pub fn each_text_is_short()
    ensures { EachTextIsShort }
{}

/// No type in the code of operations and constants is unknown: of new vectors, views, elements and results.
pub fn each_type_in_code_is_known()
    ensures { EachTypeInCodeIsKnown }
{}

/// No type of a variable, a field, a captured name or a constant is unknown.
pub fn each_type_of_a_place_is_known()
    ensures { EachTypeOfAPlaceIsKnown }
{}

/// Each number in the code is below 2^31, where each in the tree is.
pub fn each_number_is_small()
    ensures { EachNumberIsSmall }
{}

/// Each number in a program of a text is below 2^31.
pub fn each_number_of_a_text_is_small()
    ensures { EachNumberOfATextIsSmall }
{}
