//! The homes of an operation's variables.
ghost use Rattle.std.specs.Prelude.{◌≡◌, ◌≤◌, ◌<◌, ◌^◌, ℕ, true, false, Some, IfNone, IfOk, IfSome, length, slice_get};
ghost use Rattle.ec_machine_code.specs.Homes.{AreHomes, HasItsVariables};
ghost use Rattle.ec_machine_code.specs.Rows.{HaveRegisters, IsChosen, variable_at, with_home};

use crate::meeting::row_of;
use ec_base::list::Seq;
use ec_code::code::{Line, Variable};
use std::alloc::{AllocError, Global};

/// Where a variable lives between the steps of code: in one of the registers that are homes, or in a slot of the frame, by their
/// numbers from 0.
#[derive(Clone, Copy, PartialEq, Eq, Debug)]
pub enum Home {
    Register(u32),
    Slot(u32),
}

/// The registers that are homes of variables that are marked.
fn taken(
    alloc: Global,
    row: &[bool],
    homes: &Seq<Home>,
    registers: u32,
) -> Result<Vec<bool>, AllocError>
    ensures { IfOk result (λ taken. HaveRegisters row.now homes.now registers (length homes.now) taken.items) }
{
    let mut taken = vec![in alloc; false; registers as usize]?;
    for c in 0..homes.len() {
        if c < row.len() && row[c] {
            take(&mut taken, *homes.at(c));
        }
    }
    Ok(taken)
}

/// A register is taken.
fn take(taken: &mut Vec<bool>, home: Home)
    ensures { taken.new.items ≡ with_home taken.old.items home }
{
    if let Home::Register(k) = home {
        if (k as usize) < taken.len() {
            taken[k as usize] = true;
        }
    }
}

/// The first register that isn't taken.
fn first_free(taken: &[bool]) -> Option<u32>
    requires { length taken.now ≤ 2 ^ 32 }
    ensures some { IfSome result (λ k. slice_get taken.now k ≡ Some false) }
    ensures none { IfNone result ((k : ℕ) → k < length taken.now → slice_get taken.now k ≡ Some true) }
{
    for k in 0..taken.len() {
        if !taken[k] {
            return Some(k as u32);
        }
    }
    None
}

/// A home for the variable of the next column: a register that no variable has that meets it, else a slot of its own. The error
/// is want of memory.
fn choose(
    alloc: Global,
    row: &[bool],
    homes: &Seq<Home>,
    registers: u32,
) -> Result<Home, AllocError>
    requires { length homes.now < 2 ^ 32 }
    ensures { IfOk result (λ h. IsChosen row.now homes.now registers h) }
{
    let taken = taken(alloc, row, homes, registers)?;
    match first_free(&taken) {
        Some(k) => Ok(Home::Register(k)),
        None => Ok(Home::Slot(homes.len() as u32)),
    }
}

/// The variable of a column, where there are so many named ones.
fn variable_at(named: usize, c: usize) -> Variable
    requires { c < 2 ^ 32 }
    ensures { result ≡ variable_at named c }
{
    if c < named {
        Variable::Named(c as u32)
    } else {
        Variable::Temporary((c - named) as u32)
    }
}

/// The homes of an operation's variables, named ones first and then temporaries: so many in all, of which so many are named.
/// Variables that meet, where both are live at one place or one is live just behind a write of the other, have different homes; and
/// only a variable that meets one in each register gets a slot: that of its own column, so that slots are never short. The error
/// is want of memory.
///
/// The time grows with the size of the code times the number of variables.
pub fn homes_of(
    alloc: Global,
    code: &Seq<Line>,
    named: usize,
    count: usize,
    registers: u32,
) -> Result<Seq<Home>, AllocError>
    requires variables { HasItsVariables named code.now }
    requires few { count ≤ 2 ^ 32 }
    ensures { IfOk result (λ homes. AreHomes named count registers code.now homes) }
{
    let mut homes = Seq::new(alloc);
    for c in 0..count {
        let row = row_of(alloc, code, named, count, variable_at(named, c))?;
        let home = choose(alloc, &row, &homes, registers)?;
        homes.push(home)?;
    }
    Ok(homes)
}
