//! What holds of each program of three-address code that a source is lowered to.
ghost use Rattle.ec_emission_laws.specs.LoweredCodeLaws.{AcceptedIsLowerable, LoweredIsCode, LoweredRunsAgree, LoweredWorldsAgree};

/// What lowering asks holds of the source of each program that breaks no static rule.
pub fn accepted_is_lowerable()
    ensures { AcceptedIsLowerable }
{}

/// A program that a source is lowered to is the source's code, where it is well typed.
pub fn lowered_is_code()
    ensures { LoweredIsCode }
{}

/// After each list of entries the worlds of the source and of the program agree.
pub fn lowered_worlds_agree()
    ensures { LoweredWorldsAgree }
{}

/// So do they along each schedule.
pub fn lowered_runs_agree()
    ensures { LoweredRunsAgree }
{}
