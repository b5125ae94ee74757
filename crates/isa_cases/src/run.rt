//! A few words of code on a machine of either kind.

use byteorder::ByteOrder;
use ec_memory::blocks::Blocks;
use ec_target::machine::Machine;
use ec_target::outcome::{Cause, Outcome};
use ec_world::memory::Memory;
use std::alloc::{AllocError, Global};

/// Where code begins.
pub const CODE: u32 = 0x0040_0000;

/// Where the only block lies; the first word in it is the cell.
pub const CELL: u32 = 0x1000_0000;

/// What is run: the code, registers with what they hold, what the cell holds, and how many steps are done at most.
#[derive(Drop)]
pub struct Setting {
    pub code: Vec<u32>,
    pub registers: Vec<(u32, u32)>,
    pub cell: u32,
    pub steps: u32,

    /// The register that is looked at in the end.
    pub result: u32,
}

/// What came of it: how many instructions were done, what the next step came to, where it was, and what the register and the cell
/// hold.
#[derive(Clone, Copy)]
pub struct Ran {
    pub done: u32,
    pub outcome: Outcome,
    pub place: u32,
    pub result: u32,
    pub cell: u32,
}

impl Ran {
    /// Whether it ran to the end of so many words of code.
    pub fn is_at_end(&self, words: usize) -> bool {
        match self.outcome {
            Outcome::Trap(trap) => {
                trap.cause == Cause::Fetch && self.place.wrapping_sub(CODE) as usize / 4 == words
            }
            _ => false,
        }
    }
}

/// Runs a machine, from the first word on, up to the first instruction that isn't done.
pub fn run<M: Machine + Drop, O: ByteOrder>(
    alloc: Global,
    mut machine: M,
    setting: &Setting,
) -> Result<Ran, AllocError> {
    let mut memory: Blocks<O> = Blocks::new(alloc, 1, 0)?;
    let mut cell = [0u8; 4];
    O::write_u32(&mut cell, setting.cell);
    memory.store(CELL, &cell);
    set_registers(&mut machine, &setting.registers);
    machine.set_pc(CODE);
    let (done, outcome) = run_steps(&mut machine, setting, &mut memory);
    memory.load(CELL, &mut cell);
    Ok(Ran {
        done,
        outcome,
        place: machine.pc(),
        result: register(&machine, setting.result),
        cell: O::read_u32(&cell),
    })
}

fn run_steps<M: Machine, B: Memory>(
    machine: &mut M,
    setting: &Setting,
    memory: &mut B,
) -> (u32, Outcome) {
    for done in 0..setting.steps {
        let outcome = machine.step(&setting.code, memory);
        if outcome != Outcome::Went {
            return (done, outcome);
        }
    }
    (setting.steps, Outcome::Went)
}

fn set_registers<M: Machine>(machine: &mut M, registers: &[(u32, u32)]) {
    for (register, value) in registers {
        if *register < M::REGISTERS {
            machine.set_reg(*register, *value);
        }
    }
}

fn register<M: Machine>(machine: &M, register: u32) -> u32 {
    if register < M::REGISTERS {
        machine.read_reg(register)
    } else {
        0
    }
}
