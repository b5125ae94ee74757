//! How many values there are at a stop of lowered code, and that each is another.
ghost use Rattle.ec_runnable.specs.FewValuesLaws.{LoweredCarriesFew, LoweredValuesStandOnce};

/// At each stop of a program that a source is lowered to, no variable stands twice among what is live behind it and its operands.
pub fn lowered_values_stand_once()
    ensures { LoweredValuesStandOnce }
{}

/// Within the limits of code there are at most 100 of them.
pub fn lowered_carries_few()
    ensures { LoweredCarriesFew }
{}
