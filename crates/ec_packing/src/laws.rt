//! What a program's worlds keep between turns.
ghost use Rattle.ec_packing.specs.Laws.{FirstIsBetween, MovesStayBetween, TurnsStayBetween};

/// The first world of a program is one between turns.
pub fn first_is_between()
    ensures { FirstIsBetween }
{}

/// A turn leads from such a world to another one.
pub fn turns_stay_between()
    ensures { TurnsStayBetween }
{}

/// So does a move by the operator.
pub fn moves_stay_between()
    ensures { MovesStayBetween }
{}
