//! A machine of either kind.

ghost use Rattle.std.specs.Prelude.{◌≡◌, ◌<◌, ◌∷◌, [], ℕ, List, Option, Some, IfOk, IfErr};
ghost use Rattle.ec_target.specs.declared.outcome.Trap.{Trap};
ghost use Rattle.ec_target.specs.Code.{word_at};
ghost use Rattle.ec_target.specs.Runs.{Answers, AreApart, AreBases, Halts, IsOneWay, Leads, Native, ReadsBack, SetsPlace};
ghost use Rattle.ec_target.specs.Runs.{SetsRegister, WritesBytes};
ghost use Rattle.ec_world.specs.declared.node.Kind.{Kind};

use crate::outcome::{Outcome, Trap};
use ec_world::memory::Memory;

/// A machine that runs words of code over a memory.
pub trait Machine {
    /// The instruction at the machine's place leads from one state and memory to another.
    ghost goes: { List ℕ → Self → (ℕ → Option ℕ) → Self → (ℕ → Option ℕ) → Type 0 };

    /// The instruction at the machine's place is a stop.
    ghost stops: { List ℕ → Self → (ℕ → Option ℕ) → Type 0 };

    /// The instruction at the machine's place traps.
    ghost traps: { List ℕ → Self → (ℕ → Option ℕ) → Trap → Type 0 };

    /// What a register holds. Register 0 reads zero.
    ghost register: { Self → ℕ → ℕ };

    /// The place of the next instruction.
    ghost place: { Self → ℕ };

    /// Nothing is pending from the instructions before: no jump, no loaded register.
    ghost rests: { Self → Type 0 };

    /// What says how a machine goes on.
    ghost Flow: { Type 0 };

    /// How the machine goes on: its place, and all that is pending from the instructions before.
    ghost flow: { Self → Flow };

    /// What the machine holds beside registers, place and what is pending.
    ghost beside: { Self → List ℕ };

    /// The kind of nodes that have such a machine.
    ghost kind: { Kind };

    /// The word of the stop instruction.
    ghost stop_word: { ℕ };

    /// The number in the first n bytes of a list, in the machine's byte order.
    ghost number_of: { ℕ → List ℕ → ℕ };

    /// The n lowest bytes of a number, in the machine's byte order.
    ghost bytes_of: { ℕ → ℕ → List ℕ };

    ghost REGISTERS: { ℕ };

    ghost FRAME: { ℕ };

    ghost OWN: { ℕ };

    /// How many registers there are.
    const REGISTERS: u32;

    /// The register that holds the address of the activation's frame.
    const FRAME: u32;

    /// The register that holds the address of the activation's own object.
    const OWN: u32;

    /// What a register holds.
    fn read_reg(&self, r: u32) -> u32
        requires { r < REGISTERS }
        ensures { result ≡ register self.now r };

    /// Sets a register.
    fn set_reg(&mut self, r: u32, value: u32)
        requires { r < REGISTERS }
        ensures { SetsRegister register place rests beside flow self.old self.new r value };

    /// The place of the next instruction.
    fn pc(&self) -> u32
        ensures { result ≡ place self.now };

    /// Goes on from another place, with nothing pending.
    fn set_pc(&mut self, pc: u32)
        ensures { SetsPlace register place rests beside self.old self.new pc };

    /// Does the instruction at the machine's place.
    fn step<M: Memory>(&mut self, code: &[u32], memory: &mut M) -> Outcome
        ensures answer { Answers (goes code.now) (stops code.now) (traps code.now) self.old (M.byte_at memory.old) result self.new
            (M.byte_at memory.new) }
        ensures rest { M.alike memory.old memory.new };

    /// Runs to the next stop, and says how many instructions come before it.
    fn run_to_stop<M: Memory>(&mut self, code: &[u32], memory: &mut M) -> Result<u64, Trap>
        requires { Halts (goes code.now) self.old (M.byte_at memory.old) }
        ensures ok { IfOk result
            (λ k. Native (goes code.now) (stops code.now) self.old (M.byte_at memory.old) k self.new (M.byte_at memory.new)) }
        ensures err { IfErr result
            (λ trap. (k : ℕ) × Leads (goes code.now) self.old (M.byte_at memory.old) k self.new (M.byte_at memory.new)
            × traps code.now self.new (M.byte_at memory.new) trap) }
        ensures rest { M.alike memory.old memory.new }
    {
        for steps in 0..u64::MAX {
            match self.step(code, memory) {
                Outcome::Went => {}
                Outcome::Stop => return Ok(steps),
                Outcome::Trap(trap) => return Err(trap),
            }
        }
        match self.step(code, memory) {
            Outcome::Went => unreachable!(),
            Outcome::Stop => Ok(u64::MAX),
            Outcome::Trap(trap) => Err(trap),
        }
    }

    /// A step goes one way.
    ghost one_way: { (code : List ℕ) → IsOneWay (goes code) };

    /// A state goes on, stops or traps, and no two of these.
    ghost apart: { (code : List ℕ) → AreApart (goes code) (stops code) (traps code) };

    /// A stop is at a stop word.
    ghost stops_at: { (code : List ℕ) (m : Self) (b : ℕ → Option ℕ) → stops code m b → word_at code (place m) ≡ Some stop_word };

    /// The base registers are two of the machine's, and not register 0.
    ghost bases: { AreBases REGISTERS FRAME OWN };

    /// A number's bytes read as the number.
    ghost reads_back: { ReadsBack number_of bytes_of };

    /// A number has as many bytes as are asked for.
    ghost length_bytes: { WritesBytes bytes_of };

    /// Four zero bytes are 0.
    ghost zeros: { number_of 4 (0 ∷ 0 ∷ 0 ∷ 0 ∷ []) ≡ 0 };
}
