//! The listing of a source: its machine code for a kind of machine, operation by operation.
ghost use Rattle.std.specs.Prelude.{◌≡◌, IfErr, OnOk};
ghost use Rattle.ec_check.specs.Accepted.{HasCore};
ghost use Rattle.ec_compile.specs.Texts.{IsOfText};
ghost use Rattle.ec_listing.specs.Unlisted.{GoesOn, IsUnlistedOf};
ghost use Rattle.ec_listing.specs.declared.listing.Unlisted.TheVariants.{Memory};
ghost use Rattle.ec_meaning.specs.Sources.{source_of};
ghost use Rattle.ec_tool.specs.Sources.{IsChecked, IsProgramText};

use crate::lines::{Site, put_word};
use crate::names::operation_of;
use ec_compile::compile::Compiled;
use ec_compile::mips_compile::compile_for_mips;
use ec_compile::rv_compile::compile_for_riscv;
use ec_meaning::source::Program;
use ec_tool::source::{Accepted, Refused, SourceError, check_source};
use ec_world::node::Kind;
use std::alloc::{AllocError, Global};
use thiserror::Error;

/// Why there is no listing.
#[derive(Clone, Copy, Debug, PartialEq, Eq, Error)]
pub enum Unlisted {
    /// The source is no program's.
    #[error("the source is refused: {0:?}")]
    Refused(Refused),
    /// There was no memory.
    #[error("there was no memory")]
    Memory,
}

impl From<AllocError> for Unlisted {
    ghost from_gives = { λ _ e. e ≡ Memory };

    fn from(_error: AllocError) -> Unlisted {
        Unlisted::Memory
    }
}

impl From<SourceError> for Unlisted {
    ghost from_gives = { GoesOn };

    fn from(error: SourceError) -> Unlisted {
        match error {
            SourceError::Refused(refused) => Unlisted::Refused(refused),
            SourceError::Memory => Unlisted::Memory,
        }
    }
}

/// Where code starts, in bytes.
const CODE_BASE: u32 = 0x0040_0000;

/// Adds the listing of a source for a kind of machine: of each operation its heading and its words, each with its address and its
/// instruction, and at each stop what it is and what is live there.
pub fn list(alloc: Global, source: &[u8], kind: Kind, out: &mut String) -> Result<(), Unlisted>
    ensures accepted { OnOk result (IsChecked source.now) }
    ensures refused { IfErr result (IsUnlistedOf source.now) }
{
    let accepted = check_source(alloc, source)?;
    list_accepted(alloc, source, &accepted, kind, out)?;
    Ok(())
}

/// Adds the listing of a source, with the tokens and the core of its program. The error is want of memory.
fn list_accepted(
    alloc: Global,
    source: &[u8],
    accepted: &Accepted,
    kind: Kind,
    out: &mut String,
) -> Result<(), AllocError>
    requires program { IsProgramText source.now accepted.now.tokens accepted.now.checked.program }
    requires core { HasCore accepted.now.checked.program accepted.now.checked.table accepted.now.checked.core }
{
    let checked = &accepted.checked;
    let program = Program::new(alloc, source, &checked.table, &checked.core)?;
    let compiled = compile(alloc, kind, &program)?;
    put_operations(
        &Listed {
            alloc,
            kind,
            program: &program,
            compiled: &compiled,
        },
        out,
    )
}

/// The machine code of a program for a kind of machine. The error is want of memory.
fn compile(alloc: Global, kind: Kind, program: &Program<'_>) -> Result<Compiled, AllocError>
    requires { IsOfText (source_of program.now) }
{
    match kind {
        Kind::Riscv => compile_for_riscv(alloc, program),
        Kind::Mips => compile_for_mips(alloc, program),
    }
}

/// Writes the operations one behind another, with a blank line between two.
fn put_operations(listed: &Listed<'_>, out: &mut String) -> Result<(), AllocError> {
    let code = &listed.compiled.image.code;
    let mut rest = code.words.as_slice();
    let mut address = CODE_BASE;
    for (number, operation) in code.operations.as_slice().iter().enumerate() {
        if number > 0 {
            out.push('\n')?;
        }
        let (own, behind) = rest.split_at(rest.len().min(operation.words as usize));
        address = put_operation(listed, number, own, address, out)?;
        rest = behind;
    }
    Ok(())
}

/// Writes an operation whose words begin at an address, and returns the address behind it.
fn put_operation(
    listed: &Listed<'_>,
    number: usize,
    words: &[u32],
    from: u32,
    out: &mut String,
) -> Result<u32, AllocError> {
    let Some(site) = listed.site(number) else {
        return Ok(from);
    };
    site.put_heading(words.len(), out)?;
    let mut address = from;
    for word in words {
        put_word(listed.kind, address, *word, out)?;
        if let Some(id) = listed.compiled.image.table.at_pc(address) {
            site.put_numbered_stop(id.stop, out)?;
        }
        address = address.wrapping_add(4);
    }
    Ok(address)
}

/// A program with its machine code for a kind of machine.
#[derive(Clone, Copy)]
struct Listed<'a> {
    alloc: Global,
    kind: Kind,
    program: &'a Program<'a>,
    compiled: &'a Compiled,
}

impl<'a> Listed<'a> {
    /// The operation of a number, where there is one.
    fn site(&self, number: usize) -> Option<Site<'a>> {
        let line = match operation_of(self.program, number) {
            Some(operation) => Some(self.program.line(operation.at)),
            None => None,
        };
        Some(Site {
            alloc: self.alloc,
            program: self.program,
            kind: self.kind,
            number,
            line,
            operation: self.compiled.program.parts().operations.get(number)?,
            table: self.compiled.image.table.operations.get(number)?,
        })
    }
}
