//! What holds of each program of three-address code that a source is lowered to.
ghost use Rattle.ec_emission.specs.LoweredLaws.{LoweringIsDetermined};

/// No two programs are lowered from one source.
pub fn lowering_is_determined()
    ensures { LoweringIsDetermined }
{}
