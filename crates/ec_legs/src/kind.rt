//! Kinds of machines that native code of activations runs on.
ghost use Rattle.std.specs.Prelude.{ℕ};
ghost use Rattle.ec_machine_code.specs.Machine.{MachineMeaning};
ghost use Rattle.ec_legs.specs.Kinds.{AreHomeRegisters, Means};

use ec_target::machine::Machine;

/// A kind of machine: what it means to code, and which of its registers are homes of variables.
pub trait NativeKind<M: Machine> {
    /// What the machine means to code.
    ghost meaning: { MachineMeaning M };

    ghost FIRST_HOME: { ℕ };

    ghost HOMES: { ℕ };

    /// The first register that is a home.
    const FIRST_HOME: u32;

    /// How many registers are homes.
    const HOMES: u32;

    /// What the machine means to code is what it does.
    ghost means: { Means meaning M.kind M.goes M.stops M.register M.place M.rests };

    /// The homes are its registers, and none of them is a base register.
    ghost registers: { AreHomeRegisters meaning M.REGISTERS M.FRAME M.OWN FIRST_HOME HOMES };
}
