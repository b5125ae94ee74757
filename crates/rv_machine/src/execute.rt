//! One instruction.

ghost use Rattle.std.specs.Prelude.{◌≡◌, is_some, if◌then◌else◌};
ghost use Rattle.byteorder.specs.Endian.{little_bytes};
ghost use Rattle.ec_base.specs.Bytes.{Bytes, bytes_from};
ghost use Rattle.rv_machine.specs.Machine.{state_of, IsAnswer};
ghost use Rattle.rv_machine.specs.Step.{Goes, aligned, behind, does, jumps, linked, loaded, loads, register_of, stores, with_register};
ghost use Rattle.rv_machine.specs.Values.{plus, extended, load_size, store_size};

use crate::access::{load_from, size_of_load, size_of_store, store_to};
use crate::arithmetic::{extended, is_taken, on_immediate, on_registers, on_shift};
use crate::machine::RvMachine;
use ec_target::outcome::{Cause, Outcome, Trap};
use ec_world::memory::Memory;
use rv_isa::field::{Register, Twelve};
use rv_isa::instr::{Instr, Load, Store};

impl RvMachine {
    // Does one instruction.
    pub(crate) fn execute<M: Memory>(&mut self, memory: &mut M, instr: Instr) -> Outcome
        ensures answer { IsAnswer (does instr (state_of self.old (M.byte_at memory.old))) (state_of self.old (M.byte_at memory.old))
            result (state_of self.new (M.byte_at memory.new)) }
        ensures rest { M.alike memory.old memory.new }
    {
        match instr {
            Instr::Lui { rd, high } => self.finish(rd, high.bits << 12),
            Instr::Auipc { rd, high } => self.finish(rd, self.pc.wrapping_add(high.bits << 12)),
            Instr::Jal { rd, offset } => {
                self.jump(rd, self.pc.wrapping_add(extended(21, offset.bits)))
            }
            Instr::Jalr { rd, rs1, offset } => self.jump(rd, self.address(rs1, offset) / 2 * 2),
            Instr::BranchIf {
                branch,
                rs1,
                rs2,
                offset,
            } => {
                let taken = is_taken(branch, self.read(rs1), self.read(rs2));
                self.branch(taken, self.pc.wrapping_add(extended(13, offset.bits)))
            }
            Instr::LoadFrom {
                load,
                rd,
                rs1,
                offset,
            } => { self.load(memory, load, rd, self.address(rs1, offset)) }
            Instr::StoreTo {
                store,
                rs1,
                rs2,
                offset,
            } => { self.store(memory, store, self.address(rs1, offset), self.read(rs2)) }
            Instr::OnImmediate {
                operation,
                rd,
                rs1,
                number,
            } => {
                let number = extended(12, number.bits);
                self.finish(rd, on_immediate(operation, self.read(rs1), number))
            }
            Instr::OnShift {
                shift,
                rd,
                rs1,
                amount,
            } => { self.finish(rd, on_shift(shift, self.read(rs1), amount.bits)) }
            Instr::OnRegisters {
                operation,
                rd,
                rs1,
                rs2,
            } => { self.finish(rd, on_registers(operation, self.read(rs1), self.read(rs2))) }
            Instr::Ecall => Outcome::Stop,
        }
    }

    // Reads from an address into a register.
    fn load<M: Memory>(&mut self, memory: &M, load: Load, rd: Register, at: u32) -> Outcome
        ensures { IsAnswer
            (aligned (load_size load) at
            (loads (state_of self.old (M.byte_at memory.now)) rd (loaded load (M.byte_at memory.now) at)))
            (state_of self.old (M.byte_at memory.now)) result (state_of self.new (M.byte_at memory.now)) }
    {
        if at % size_of_load(load) != 0 {
            return self.trap(Cause::Unaligned);
        }
        match load_from(memory, load, at) {
            None => self.trap(Cause::Outside),
            Some(value) => self.finish(rd, value),
        }
    }

    // Writes the lowest bytes of a word at an address.
    fn store<M: Memory>(&mut self, memory: &mut M, store: Store, at: u32, value: u32) -> Outcome
        ensures answer { IsAnswer
            (aligned (store_size store) at
            (stores (state_of self.old (M.byte_at memory.old)) at (little_bytes (store_size store) value)
            (is_some (bytes_from (M.byte_at memory.old) at (store_size store))))) (state_of self.old (M.byte_at memory.old))
            result (state_of self.new (M.byte_at memory.new)) }
        ensures rest { M.alike memory.old memory.new }
    {
        if at % size_of_store(store) != 0 {
            return self.trap(Cause::Unaligned);
        }
        if !store_to(memory, store, at, value) {
            return self.trap(Cause::Outside);
        }
        self.pc = self.pc.wrapping_add(4);
        Outcome::Went
    }

    // Goes on at a target where the branch is taken, else behind the instruction.
    fn branch(&mut self, taken: bool, target: u32) -> Outcome
        ensures { (b : Bytes) → IsAnswer (if taken then jumps (state_of self.old b) target else Goes (behind (state_of self.old b)))
            (state_of self.old b) result (state_of self.new b) }
    {
        if !taken {
            self.pc = self.pc.wrapping_add(4);
            return Outcome::Went;
        }
        if target % 4 != 0 {
            return self.trap(Cause::Unaligned);
        }
        self.pc = target;
        Outcome::Went
    }

    // Goes on at a target, and writes the place behind the instruction into a register.
    fn jump(&mut self, rd: Register, target: u32) -> Outcome
        ensures { (b : Bytes) → IsAnswer (jumps (linked (state_of self.old b) rd) target) (state_of self.old b) result
            (state_of self.new b) }
    {
        if target % 4 != 0 {
            return self.trap(Cause::Unaligned);
        }
        self.write(rd, self.pc.wrapping_add(4));
        self.pc = target;
        Outcome::Went
    }

    // Writes a register, and goes on behind the instruction.
    fn finish(&mut self, rd: Register, value: u32) -> Outcome
        ensures outcome { result ≡ Outcome.Went }
        ensures registers { self.new.registers ≡ with_register self.old.registers rd.number value }
        ensures place { self.new.pc ≡ plus self.old.pc 4 }
    {
        self.write(rd, value);
        self.pc = self.pc.wrapping_add(4);
        Outcome::Went
    }

    // A trap at this place.
    pub(crate) fn trap(&self, cause: Cause) -> Outcome
        ensures { result ≡ Outcome.Trap (record { cause = cause; pc = self.now.pc }) }
    {
        Outcome::Trap(Trap { cause, pc: self.pc })
    }

    // The address of a load or a store.
    fn address(&self, register: Register, offset: Twelve) -> u32
        ensures { result ≡ plus (register_of self.now.registers register.number) (extended 12 offset.bits) }
    {
        self.read(register).wrapping_add(extended(12, offset.bits))
    }

    // What a register holds; register 0 reads zero.
    pub(crate) fn read(&self, register: Register) -> u32
        ensures { result ≡ register_of self.now.registers register.number }
    {
        if register.number == 0 {
            0
        } else {
            self.registers[register.number as usize]
        }
    }

    // Sets a register; a write to register 0 is lost.
    pub(crate) fn write(&mut self, register: Register, value: u32)
        ensures registers { self.new.registers ≡ with_register self.old.registers register.number value }
        ensures place { self.new.pc ≡ self.old.pc }
    {
        if register.number != 0 {
            self.registers[register.number as usize] = value;
        }
    }
}
