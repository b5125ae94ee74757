//! What the types that are read from tokens have to do with the tree, and with the code of the program.
ghost use Rattle.ec_vector_types.specs.Laws.{CodeMakesWritten, NumbersAreOfWritten, TypesAreRead};

/// Where the grammar has a type, the type that is read there is the one that the static rules see.
pub fn types_are_read()
    ensures { TypesAreRead }
{}

/// The code of an accepted text makes vectors of no type but those that the text writes.
pub fn code_makes_written()
    ensures { CodeMakesWritten }
{}

/// Just the types that an accepted text writes have numbers in parcels.
pub fn numbers_are_of_written()
    ensures { NumbersAreOfWritten }
{}
