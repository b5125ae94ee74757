//! Types of live variables in lowered code.
ghost use Rattle.ec_runnable.specs.TypedOnceLaws.{LoweredIsTypedOnce};

/// A live variable has one type on each line of a program that some source is lowered to.
pub fn lowered_is_typed_once()
    ensures { LoweredIsTypedOnce }
{}
