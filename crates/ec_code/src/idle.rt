//! What entries keep of activations whose action is done.
ghost use Rattle.ec_code.specs.IdleLaws.{ActionsKeepWorldsIdle, EachRunIsIdle, EntriesKeepWorldsIdle, SilentStepsKeepWorldsIdle};

/// An action keeps what is said of activations whose action is done, and of the program's own object.
pub fn actions_keep_worlds_idle()
    ensures { ActionsKeepWorldsIdle }
{}

/// Silent steps keep it.
pub fn silent_steps_keep_worlds_idle()
    ensures { SilentStepsKeepWorldsIdle }
{}

/// Each entry keeps it.
pub fn entries_keep_worlds_idle()
    ensures { EntriesKeepWorldsIdle }
{}

/// It holds of each world of each run.
pub fn each_run_is_idle()
    ensures { EachRunIsIdle }
{}
