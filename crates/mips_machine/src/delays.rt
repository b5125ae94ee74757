//! The delays that the manual asks for, over instructions that are done one behind the other.
ghost use Rattle.mips_machine.specs.Delays.{HiLoIsKept, LoadIsDelayed, SlotHoldsNoJump, SlotIsDoneFirst};

/// The instruction in a jump's slot is done before the one that the jump leads to.
pub fn slot_is_done_first()
    ensures { SlotIsDoneFirst }
{}

/// A jump, a branch or a stop traps just where it stands in a slot.
pub fn slot_holds_no_jump()
    ensures { SlotHoldsNoJump }
{}

/// A loaded register is kept from the next instruction alone.
pub fn load_is_delayed()
    ensures { LoadIsDelayed }
{}

/// HI and LO are kept from the two instructions behind one that reads either.
pub fn hilo_is_kept()
    ensures { HiLoIsKept }
{}
