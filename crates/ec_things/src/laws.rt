//! What nodes show after one change of what they keep.
ghost use Rattle.ec_things.specs.Laws.{ConstantIsShown, NewBytesAreOne, OneChangeIsShown};

/// A node puts an object or an activation, or takes one away: all nodes show the same things, with this change.
pub fn one_change_is_shown()
    ensures { OneChangeIsShown }
{}

/// Each node puts a constant: all nodes show the same things and constants, with this change.
pub fn constant_is_shown()
    ensures { ConstantIsShown }
{}

/// How many bytes of text are new at a node depends on no order.
pub fn new_bytes_are_one()
    ensures { NewBytesAreOne }
{}
