//! The machines on which native code runs.
use mips_machine::machine::MipsMachine;
use rv_machine::machine::RvMachine;

/// A machine of each kind, on which the nodes' code runs in turn: nothing that one run leaves there is read by the next.
#[derive(Drop)]
pub struct Machines {
    pub(crate) riscv: RvMachine,
    pub(crate) mips: MipsMachine,
}

impl Machines {
    /// A machine of each kind, with zero in each register.
    pub fn new() -> Machines {
        Machines {
            riscv: RvMachine::new(),
            mips: MipsMachine::new(),
        }
    }
}
