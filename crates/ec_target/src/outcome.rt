//! What a step of a machine comes to.

/// Why a machine can't go on.
#[derive(Clone, Copy, PartialEq, Eq, Debug)]
pub enum Cause {
    /// The word is no instruction.
    Unlisted,
    /// An access at an address, or a jump to one, that is no multiple of its size.
    Unaligned,
    /// An access that isn't wholly in blocks or globals.
    Outside,
    /// A place that isn't in the code, or no multiple of 4.
    Fetch,
    /// A sum that doesn't fit.
    Overflow,
    /// A loaded register that the next instruction uses.
    LoadDelay,
    /// A jump or a stop in a jump's slot.
    Slot,
    /// A division without a result.
    Divide,
    /// A product or quotient too soon after its forerunner was read.
    HiLo,
}

/// Why a machine can't go on, and the place of the instruction.
#[derive(Clone, Copy, PartialEq, Eq, Debug)]
pub struct Trap {
    pub cause: Cause,
    pub pc: u32,
}

/// What one step came to: the instruction is done, it is a stop, or it traps.
#[derive(Clone, Copy, PartialEq, Eq, Debug)]
pub enum Outcome {
    Went,
    Stop,
    Trap(Trap),
}
