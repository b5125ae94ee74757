//! What holds of every program of three-address code whose numbers and texts are in range.
ghost use Rattle.ec_code.specs.RangesLaws.{ActionsKeepWorldsRanged, AskedValuesAreRanged, DoneValuesAreRanged, EachRunIsRanged};
ghost use Rattle.ec_code.specs.RangesLaws.{EntriesKeepWorldsRanged, StepsKeepMachinesRanged, WorldsSeeRanged};

/// A step leaves what it reads and writes in range.
pub fn steps_keep_machines_ranged()
    ensures { StepsKeepMachinesRanged }
{}

/// What the table of actions asks for says values in range, where the operands and what is seen are.
pub fn asked_values_are_ranged()
    ensures { AskedValuesAreRanged }
{}

/// A world in range sees itself so.
pub fn worlds_see_ranged()
    ensures { WorldsSeeRanged }
{}

/// What is then done leaves what the world has beside its processes in range, and gives activations values in range.
pub fn done_values_are_ranged()
    ensures { DoneValuesAreRanged }
{}

/// An action leaves a world in range.
pub fn actions_keep_worlds_ranged()
    ensures { ActionsKeepWorldsRanged }
{}

/// A world in range stays so, entry by entry.
pub fn entries_keep_worlds_ranged()
    ensures { EntriesKeepWorldsRanged }
{}

/// Each world of each run is in range.
pub fn each_run_is_ranged()
    ensures { EachRunIsRanged }
{}
