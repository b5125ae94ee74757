//! What holds of every program of three-address code that is well typed.
ghost use Rattle.ec_code.specs.SoundLaws.{DividingIsFine, EachRunIsSound, EntriesKeepWorldsSound, NoSilentStepLacksACase, NoStopLacksACase};
ghost use Rattle.ec_code.specs.SoundLaws.{ReadyProcessesGoOn};

/// A sound world stays sound.
pub fn entries_keep_worlds_sound()
    ensures { EntriesKeepWorldsSound }
{}

/// Each world of each run is sound.
pub fn each_run_is_sound()
    ensures { EachRunIsSound }
{}

/// The table of actions has a case for each stop whose action is to be done.
pub fn no_stop_lacks_a_case()
    ensures { NoStopLacksACase }
{}

/// Behind each stop whose action is done silent steps reach a stop.
pub fn no_silent_step_lacks_a_case()
    ensures { NoSilentStepLacksACase }
{}

/// After each list of entries a process that is Ready has an activation on top.
pub fn ready_processes_go_on()
    ensures { ReadyProcessesGoOn }
{}

/// A program that divides is well typed: what is asked of one can be met.
pub fn dividing_is_fine()
    ensures { DividingIsFine }
{}
