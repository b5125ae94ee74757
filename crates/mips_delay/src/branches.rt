//! Where jumps and branches lead, and the same led elsewhere.
ghost use Rattle.std.specs.Prelude.{◌≡◌, IfSome, IfNone, true, false};
ghost use Rattle.mips_delay.specs.Choice.{CanLead, IsNear};
ghost use Rattle.mips_delay.specs.Swap.{is_same_turn, is_turn, turned_to};
ghost use Rattle.mips_machine.specs.Step.{branch_target};

use mips_isa::field::{Sixteen, Target, field};
use mips_isa::instr::Instr;
use mips_machine::arithmetic::extended;

/// Where a jump or a branch leads that stands at an address; None for other instructions, and for a jump to a register or one that links.
pub(crate) fn turned_to(instr: Instr, at: u32) -> Option<u32>
    ensures some { IfSome result (λ goal. (is_turn instr ≡ true) × (turned_to instr at ≡ goal)) }
    ensures none { IfNone result (is_turn instr ≡ false) }
{
    match instr {
        Instr::J { target } => {
            Some(at.wrapping_add(4) / 0x1000_0000 * 0x1000_0000 + 4 * target.words)
        }
        Instr::BranchIf { offset, .. } => Some(branch_target(at, offset)),
        Instr::BranchOnZero { offset, .. } => Some(branch_target(at, offset)),
        _ => None,
    }
}

/// Where a branch at an address leads: its offset counts words from its slot.
fn branch_target(at: u32, offset: Sixteen) -> u32
    ensures { result ≡ branch_target at offset }
{
    let far = extended(16, offset.bits).wrapping_mul(4);
    at.wrapping_add(4).wrapping_add(far)
}

/// The jump or branch, so that it leads from one address to another.
pub(crate) fn leading(instr: Instr, at: u32, goal: u32) -> Instr
    requires can { CanLead instr at goal }
    requires turns { is_turn instr ≡ true }
    ensures same { is_same_turn instr result }
    ensures leads { turned_to result at ≡ goal }
{
    match instr {
        Instr::J { .. } => Instr::J {
            target: Target { words: goal / 4 },
        },
        Instr::BranchIf { branch, rs, rt, .. } => Instr::BranchIf {
            branch,
            rs,
            rt,
            offset: offset_to(at, goal),
        },
        Instr::BranchOnZero { branch, rs, .. } => Instr::BranchOnZero {
            branch,
            rs,
            offset: offset_to(at, goal),
        },
        _ => instr,
    }
}

/// The offset of a branch that leads from one address to another.
#[tactic(auto, using(crate::proofs::Offsets::offset_leads))]
fn offset_to(at: u32, goal: u32) -> Sixteen
    requires near { IsNear at goal }
    ensures { branch_target at result ≡ goal }
{
    Sixteen {
        bits: field(goal.wrapping_sub(at + 4), 2, 16),
    }
}
