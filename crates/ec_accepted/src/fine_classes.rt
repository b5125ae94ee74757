//! What holds of each program that a source is lowered to, of its classes and its beginning.
ghost use Rattle.ec_accepted.specs.FineClassesLaws.{ClassesAreFine};

/// Each class is well typed, the program's own operation begins it, and its constants have types of the program.
pub fn classes_are_fine()
    ensures { ClassesAreFine }
{}
