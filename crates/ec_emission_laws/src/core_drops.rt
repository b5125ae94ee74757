//! What the core of a program that breaks no static rule drops.
ghost use Rattle.ec_emission_laws.specs.CoreDropsLaws.{EachDropGivesOrCalls};

/// What a statement drops gives a value, or it is a call.
pub fn each_drop_gives_or_calls()
    ensures { EachDropGivesOrCalls }
{}
