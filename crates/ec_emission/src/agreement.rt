//! What holds of a program and its three-address code.
ghost use Rattle.ec_emission.specs.Agreement.{LoopsStand};
ghost use Rattle.ec_emission.specs.AgreementLaws.{NoSourceStepLacksACase, NoSourceStopLacksACase, OperandsAreHeld, ReadySourcesGoOn};
ghost use Rattle.ec_emission.specs.AgreementLaws.{RunsAgree, WorldsAgree};

/// Whoever writes code for sources says how loops stand in it.
pub trait Loops {
    ghost stand: { LoopsStand };
}

/// After each list of entries the worlds of the source and of its code agree.
pub fn worlds_agree<L: Loops>()
    ensures { WorldsAgree L.stand }
{}

/// So do they along each schedule.
pub fn runs_agree<L: Loops>()
    ensures { RunsAgree L.stand }
{}

/// In each of the source's worlds the table of actions has a case for each stop whose action is to be done.
pub fn no_source_stop_lacks_a_case<L: Loops>()
    ensures { NoSourceStopLacksACase L.stand }
{}

/// Behind each stop of the source whose action is done silent steps reach a stop.
pub fn no_source_step_lacks_a_case<L: Loops>()
    ensures { NoSourceStepLacksACase L.stand }
{}

/// In each of the source's worlds a process that is Ready has an activation on top.
pub fn ready_sources_go_on<L: Loops>()
    ensures { ReadySourcesGoOn L.stand }
{}

/// While an invocation is pending in one of the code's worlds, its variables hold its operands, the own object too where this is
/// the receiver.
pub fn operands_are_held<L: Loops>()
    ensures { OperandsAreHeld L.stand }
{}
