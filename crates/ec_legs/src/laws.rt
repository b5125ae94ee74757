//! When activations can go on, and what a system keeps when one has.
ghost use Rattle.ec_legs.specs.Laws.{CodeStays, IdleTopsGoOn, LiteralsStay, SystemsRunOn};

/// In a sound world in which activations whose action is done are idle, one on top can go on.
pub fn idle_tops_go_on()
    ensures { IdleTopsGoOn }
{}

/// A system that shows the world in which a process has gone on runs this world.
pub fn systems_run_on()
    ensures { SystemsRunOn }
{}

/// The images are still those of the program.
pub fn code_stays()
    ensures { CodeStays }
{}

/// Each node still has the literals of the program at their places.
pub fn literals_stay()
    ensures { LiteralsStay }
{}
