//! Whether a program breaks a static rule; one that breaks none, with its core.
ghost use Rattle.std.specs.Prelude.{◌≡◌, IfErr, IfOk};
ghost use Rattle.ec_check.specs.Accepted.{HasCore, IsRefused};
ghost use Rattle.ec_check.specs.declared.check.CheckError.TheVariants.{Memory};
ghost use Rattle.ec_types.specs.Declarations.{declarations_of};
ghost use Rattle.ec_types.specs.Table.{IsTable};

use crate::program::core_of;
use ec_ast::Program;
use ec_core::Core;
use ec_judge::program::{judged_program, scope_of};
use ec_rules::StaticFault;
use ec_types::conform::TypeTable;
use std::alloc::{AllocError, Global};

/// A program that breaks no static rule, with the table of its types, and with its core: in it each name, type and
/// operation is resolved, and it is well typed.
#[derive(Drop)]
pub struct Checked {
    pub program: Program,
    pub table: TypeTable,
    pub core: Core,
    pub ghost accepted: { ∥ HasCore program table core ∥₁ },
}

/// Why a program isn't accepted.
#[derive(Clone, Copy, Debug, PartialEq, Eq)]
pub enum CheckError {
    /// Its first static fault, by place, then by rule.
    Fault(StaticFault),
    /// There was no memory.
    Memory,
}

impl From<AllocError> for CheckError {
    ghost from_gives = { λ _ error. error ≡ Memory };

    fn from(_error: AllocError) -> CheckError {
        CheckError::Memory
    }
}

/// The program with its core, if it breaks no static rule.
pub fn check(alloc: Global, program: Program) -> Result<Checked, CheckError>
    ensures program { IfOk result (λ checked. checked.program ≡ program) }
    ensures accepted { IfOk result (λ checked. HasCore checked.program checked.table checked.core) }
    ensures refused { IfErr result (IsRefused program) }
{
    let table = TypeTable::build(alloc, &program)?;
    let (core, table) = core_if_accepted(alloc, table, &program)?;
    Ok(Checked {
        program,
        table,
        core,
    })
}

/// The core of a program with this table of types, if it breaks no static rule, and the table.
fn core_if_accepted(
    alloc: Global,
    table: TypeTable,
    program: &Program,
) -> Result<(Core, TypeTable), CheckError>
    requires { IsTable (declarations_of program.now) table }
    ensures accepted { IfOk result (λ made. HasCore program.now made.1 made.0) }
    ensures refused { IfErr result (IsRefused program.now) }
{
    let constants = program.constants.as_slice();
    let scope = scope_of(alloc, table, constants)?;
    let walk = judged_program(alloc, scope, constants)?;
    match walk.faults.first {
        Some(fault) => Err(CheckError::Fault(fault)),
        None => Ok(core_of(alloc, walk, constants)?),
    }
}
