//! A run of the loop of native code, from stop to stop, on a machine of either kind.
use crate::stops::{entry_of_loop, home_of_operand, is_passed};
use byteorder::{BigEndian, ByteOrder, LittleEndian};
use ec_compile::compile::Compiled;
use ec_machine_code::homes::Home;
use ec_memory::blocks::Blocks;
use ec_target::machine::Machine;
use ec_target::outcome::Outcome;
use ec_world::memory::Memory;
use ec_world::node::Kind;
use mips_machine::machine::MipsMachine;
use rv_machine::machine::RvMachine;
use std::alloc::{AllocError, Global};

/// Where the frame lies: in block 0.
const FRAME_AT: u32 = 0x1000_0000;

/// Where the own object lies: in block 1.
const OWN_AT: u32 = 0x1000_0200;

/// The word of the frame that is the reference to the own object, and the number of that object.
const OWN_REFERENCE: u32 = 6;

const OWN_NUMBER: u32 = 1;

/// The word of the frame that is its first slot.
const FIRST_SLOT: u32 = 28;

/// The first register that is a home, of each kind of machine.
const FIRST_HOME_OF_RISCV: u32 = 18;

const FIRST_HOME_OF_MIPS: u32 = 16;

/// How many steps a run has at most, instructions and stops.
const MOST_STEPS: u64 = 10_000_000;

/// The most constants that a node has room for.
const MOST_CONSTANTS: usize = 1_048_576;

/// What a run came to: how many instructions were done, and the number that the first operand has at the stop where the run is over.
/// There is none where the run ends in a trap, at a stop without operands, or only because it is too long.
#[derive(Clone, Copy)]
pub struct Ran {
    pub instructions: u64,
    pub result: Option<i32>,
}

/// Runs the first operation that has a loop, from behind its entry to the first stop that is no top of a loop, on a machine of a kind.
pub fn run_loop(alloc: Global, kind: Kind, made: &Compiled) -> Result<Ran, AllocError> {
    match kind {
        Kind::Riscv => {
            run::<RvMachine, LittleEndian>(alloc, RvMachine::new(), FIRST_HOME_OF_RISCV, made)
        }
        Kind::Mips => {
            run::<MipsMachine, BigEndian>(alloc, MipsMachine::new(), FIRST_HOME_OF_MIPS, made)
        }
    }
}

fn run<M: Machine + Drop, O: ByteOrder>(
    alloc: Global,
    mut machine: M,
    first_home: u32,
    made: &Compiled,
) -> Result<Ran, AllocError> {
    let mut memory = new_memory::<O>(alloc, made)?;
    let Some(entry) = entry_of_loop(made) else {
        return Ok(Ran {
            instructions: 0,
            result: None,
        });
    };
    set_register(&mut machine, M::FRAME, FRAME_AT);
    set_register(&mut machine, M::OWN, OWN_AT);
    machine.set_pc(entry.wrapping_add(4));
    let instructions = run_to_end(&mut machine, made, &mut memory);
    let result = match home_of_operand(made, machine.pc()) {
        Some(home) => number_at::<M, O>(&machine, first_home, &memory, home),
        None => None,
    };
    Ok(Ran {
        instructions,
        result,
    })
}

/// A memory with a frame, its own object, and room for the constants of a program. The error is want of memory, or more constants than
/// there is room for.
fn new_memory<O: ByteOrder>(alloc: Global, made: &Compiled) -> Result<Blocks<O>, AllocError> {
    let constants = made.program.parts().constants.len();
    if constants > MOST_CONSTANTS {
        return Err(AllocError);
    }
    let mut memory: Blocks<O> = Blocks::new(alloc, 2, constants as u32)?;
    let mut bytes = [0; 4];
    O::write_u32(&mut bytes, OWN_NUMBER);
    memory.store(FRAME_AT + 4 * OWN_REFERENCE, &bytes);
    Ok(memory)
}

fn set_register<M: Machine>(machine: &mut M, register: u32, value: u32) {
    if register < M::REGISTERS {
        machine.set_reg(register, value);
    }
}

/// Runs a machine to the first stop that isn't passed, or to a trap, and says how many instructions come before it.
fn run_to_end<M: Machine, B: Memory>(machine: &mut M, made: &Compiled, memory: &mut B) -> u64 {
    let mut instructions = 0u64;
    for _ in 0..MOST_STEPS {
        match machine.step(made.image.code.words.as_slice(), memory) {
            Outcome::Went => instructions = instructions.saturating_add(1),
            Outcome::Stop if is_passed(made, machine.pc()) => {
                machine.set_pc(machine.pc().wrapping_add(4));
            }
            Outcome::Stop | Outcome::Trap(_) => return instructions,
        }
    }
    instructions
}

/// The number that a home holds.
fn number_at<M: Machine, O: ByteOrder>(
    machine: &M,
    first_home: u32,
    memory: &Blocks<O>,
    home: Home,
) -> Option<i32> {
    match home {
        Home::Register(k) => {
            let register = first_home.checked_add(k)?;
            if register >= M::REGISTERS {
                return None;
            }
            Some(machine.read_reg(register).cast_signed())
        }
        Home::Slot(n) => {
            let word = FIRST_SLOT.checked_add(n)?;
            let mut bytes = [0; 4];
            if !memory.load(FRAME_AT.checked_add(word.checked_mul(4)?)?, &mut bytes) {
                return None;
            }
            Some(O::read_u32(&bytes).cast_signed())
        }
    }
}
