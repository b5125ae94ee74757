//! What holds of the stop tables of all kinds of machines.
ghost use Rattle.ec_compile.specs.Kinds.{KindsNameTheSame};

/// The tables of two kinds for one program name the same live values at each stop.
pub fn kinds_name_the_same()
    ensures { KindsNameTheSame }
{}
