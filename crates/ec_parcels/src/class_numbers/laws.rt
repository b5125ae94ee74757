//! What holds of the classes of the objects of a program's worlds.
ghost use Rattle.ec_parcels.specs.ClassNumbersLaws.{ActionsKeepVectorsMade, EachClassHasNumber, EachRunMakesVectors, MovesKeepVectorsMade};
ghost use Rattle.ec_parcels.specs.ClassNumbersLaws.{NoneButWritten, SilentStepsKeepVectorsMade, TableOnce, WrittenComeFirst};

/// An action makes no vectors but of types that the code makes.
pub fn actions_keep_vectors_made()
    ensures { ActionsKeepVectorsMade }
{}

/// Silent steps make no vectors.
pub fn silent_steps_keep_vectors_made()
    ensures { SilentStepsKeepVectorsMade }
{}

/// Moves by the operator make no vectors.
pub fn moves_keep_vectors_made()
    ensures { MovesKeepVectorsMade }
{}

/// The code makes vectors of the type of each vector of each world of each run.
pub fn each_run_makes_vectors()
    ensures { EachRunMakesVectors }
{}

/// The class of each object of a sound world has a number, but that of nodes.
pub fn each_class_has_number()
    ensures { EachClassHasNumber }
{}

/// No type stands twice in the table of a program.
pub fn table_once()
    ensures { TableOnce }
{}

/// The types that are written come first, each where it stands first.
pub fn written_come_first()
    ensures { WrittenComeFirst }
{}

/// Where each type of which the code makes vectors is written, the table has no others.
pub fn none_but_written()
    ensures { NoneButWritten }
{}
