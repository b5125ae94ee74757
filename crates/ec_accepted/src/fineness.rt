//! What holds of each program of three-address code that a source is lowered to.
ghost use Rattle.ec_accepted.specs.FinenessLaws.{WideHoldsWhatIsLive, WideIsEnough};

/// Code that is well typed by lists with more than what is live is well typed by what is live alone.
pub fn wide_is_enough()
    ensures { WideIsEnough }
{}

/// Such lists hold all that is live.
pub fn wide_holds_what_is_live()
    ensures { WideHoldsWhatIsLive }
{}
