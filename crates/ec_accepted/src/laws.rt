//! What holds of each accepted program and of what it is lowered to.
ghost use Rattle.ec_accepted.specs.Laws.{AcceptedIsSound, LoweredIsFine, LoweredRunsAgree, LoweredWorldsAgree};
ghost use Rattle.ec_accepted.specs.Laws.{NoStepLacksACase, NoStopLacksACase, OperandsAreHeld, ReadyProcessesGoOn, TextsAreAccepted};

/// A text that has tokens, a tree and a core is an accepted program's.
pub fn texts_are_accepted()
    ensures { TextsAreAccepted }
{}

/// The typing of its code has what it rests on.
pub fn accepted_is_sound()
    ensures { AcceptedIsSound }
{}

/// The program of three-address code is well typed.
pub fn lowered_is_fine()
    ensures { LoweredIsFine }
{}

/// After each list of entries, on each number of nodes, its worlds agree with the source's.
pub fn lowered_worlds_agree()
    ensures { LoweredWorldsAgree }
{}

/// So do they along each schedule, after so many entries.
pub fn lowered_runs_agree()
    ensures { LoweredRunsAgree }
{}

/// While an invocation is pending in one of its worlds, its variables hold its operands, the own object too where this is the
/// receiver.
pub fn operands_are_held()
    ensures { OperandsAreHeld }
{}

/// No pending stop of the source lacks a case.
pub fn no_stop_lacks_a_case()
    ensures { NoStopLacksACase }
{}

/// Nor does a silent step.
pub fn no_step_lacks_a_case()
    ensures { NoStepLacksACase }
{}

/// Each Ready process goes on.
pub fn ready_processes_go_on()
    ensures { ReadyProcessesGoOn }
{}
