//! A reader who believes the relation that is proved here need not read how the core is made.
ghost use Rattle.ec_core_laws.specs.CoreTiesLaws.{EachAssignmentHasATarget, EachClassIsDeclared, EachCoreIsTied};

/// The core of each accepted program is tied to its tree, construct by construct, where each assignment has a target.
pub fn each_core_is_tied()
    ensures { EachCoreIsTied }
{}

/// The number of each class is that of a declared type.
pub fn each_class_is_declared()
    ensures { EachClassIsDeclared }
{}

/// Each assignment in the tree of a text has a target: a name, or a chain that ends in an index.
pub fn each_assignment_has_a_target()
    ensures { EachAssignmentHasATarget }
{}
