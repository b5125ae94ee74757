//! Homes for the variables of a program, and its stops.
ghost use Rattle.std.specs.Prelude.{◌≡◌, ◌≤◌, ◌^◌, [], length, IfOk};
ghost use Rattle.ec_machine_code.specs.Limits.{IsSmallOperation};
ghost use Rattle.ec_generate.specs.Tables.{AreTablesOf, IsTableOf};

use crate::addresses::Addresses;
use crate::entries::entries_of;
use crate::fitting::FittingProgram;
use crate::table::{OperationTable, StopTable};
use ec_base::list::Seq;
use ec_code::code::Operation;
use ec_machine_code::homes::homes_of;
use std::alloc::{AllocError, Global};

/// The table of an operation. The error is want of memory.
fn table_of(
    alloc: Global,
    operation: &Operation,
    registers: u32,
    slots: u32,
) -> Result<OperationTable, AllocError>
    requires small { IsSmallOperation operation.now }
    ensures { IfOk result (λ t. IsTableOf registers slots operation.now t) }
{
    let named = operation.variables.len();
    let homes = homes_of(alloc, &operation.code, named, slots as usize, registers)?;
    let stops = entries_of(alloc, &operation.code)?;
    Ok(OperationTable {
        named: named as u32,
        homes,
        stops,
    })
}

/// The stop table of a program on a kind of machine that has so many home registers and slots of a frame; it is bound to no code
/// yet. The error is want of memory alone, since no variable lacks a slot.
///
/// The time grows with the size of the program times the number of slots.
pub fn assign(
    alloc: Global,
    program: &FittingProgram,
    registers: u32,
    slots: u32,
) -> Result<StopTable, AllocError>
    requires slots { 100 ≤ slots }
    ensures tables { IfOk result (λ table. AreTablesOf registers slots program.now table.operations) }
    ensures unbound { IfOk result (λ table. table.addresses ≡ []) }
{
    let parts = program.parts();
    let mut operations = Seq::new(alloc);
    for operation in parts.operations.as_slice() {
        operations.push(table_of(alloc, operation, registers, slots)?)?;
    }
    Ok(StopTable {
        operations,
        addresses: Addresses::none(alloc),
    })
}
