//! The lines of a listing.
use crate::homes::{put_home, put_type, put_variable};
use crate::mips::MipsAt;
use crate::names::put_operation;
use crate::riscv::RiscvAt;
use crate::stops::{line_of, put_stop};
use ec_code::code::{Live, Op, Operation, StopRow};
use ec_generate::table::{OperationTable, StopEntry};
use ec_meaning::source::Program;
use ec_world::node::Kind;
use ec_world::stop::Stop;
use std::alloc::{AllocError, Global};
use std::fmt::Write;

/// An operation of a program: its number among all, and the homes of its variables on a kind of machine.
#[derive(Clone, Copy)]
pub struct Site<'a> {
    pub alloc: Global,
    pub program: &'a Program<'a>,
    pub kind: Kind,
    pub number: usize,
    /// The line of the source on which the operation begins; the program's own has none.
    pub line: Option<u32>,
    pub operation: &'a Operation,
    pub table: &'a OperationTable,
}

impl<'a> Site<'a> {
    /// Writes the heading of the operation, which has so many words.
    pub fn put_heading(&self, words: usize, out: &mut String) -> Result<(), AllocError> {
        let number = self.number;
        write!(out, "operation {number}: ")?;
        put_operation(self.program, number, out)?;
        if let Some(line) = self.line {
            write!(out, ", line {line}")?;
        }
        writeln!(out, ", {words} words")
    }

    /// Writes the stop of a number: what it does and on which line, and what is live there, each with its home.
    pub fn put_numbered_stop(&self, number: u32, out: &mut String) -> Result<(), AllocError> {
        let Some(entry) = self.table.stops.get(number as usize) else {
            return Ok(());
        };
        let Some(row) = self.row(entry.place) else {
            return Ok(());
        };
        write!(out, "    stop {number}: ")?;
        put_stop(self.alloc, self.program, row.stop, out)?;
        if let Some(line) = self.line_at(row.stop) {
            write!(out, ", line {line}")?;
        }
        out.push('\n')?;
        self.put_live(entry, out)
    }

    /// The stop at a place of the code.
    fn row(&self, place: u32) -> Option<&'a StopRow> {
        match &self.operation.code.get(place as usize)?.op {
            Op::Rest(row) => Some(row),
            _ => None,
        }
    }

    /// The line of a stop, where it is known: an entry is where the operation begins.
    fn line_at(&self, stop: Stop) -> Option<u32> {
        match stop {
            Stop::Entry => self.line,
            _ => line_of(stop),
        }
    }

    /// Writes what is live at a stop: what it takes, what it gives, and what is kept behind it.
    fn put_live(&self, entry: &StopEntry, out: &mut String) -> Result<(), AllocError> {
        self.put_row("takes", entry.operands.as_slice(), out)?;
        if let Some(result) = entry.result {
            self.put_row("gives", &[result], out)?;
        }
        self.put_row("keeps", entry.live.as_slice(), out)
    }

    /// Writes a line of variables with their types and homes, unless there are none.
    fn put_row(&self, word: &str, live: &[Live], out: &mut String) -> Result<(), AllocError> {
        if live.is_empty() {
            return Ok(());
        }
        write!(out, "      {word} ")?;
        for (place, one) in live.iter().enumerate() {
            if place > 0 {
                out.push_str(", ")?;
            }
            self.put_one(*one, out)?;
        }
        out.push('\n')
    }

    /// Writes a variable with its type and its home.
    fn put_one(&self, one: Live, out: &mut String) -> Result<(), AllocError> {
        put_variable(self.operation, one.variable, out)?;
        out.push(' ')?;
        put_type(self.program.table(), one.of, out)?;
        out.push_str(" in ")?;
        put_home(self.kind, self.table.home(one.variable), out)
    }
}

/// Writes a word at its address with its instruction; a word that is no instruction's as a number.
pub fn put_word(kind: Kind, address: u32, word: u32, out: &mut String) -> Result<(), AllocError> {
    write!(out, "{address:8x}:\t{word:08x}\t")?;
    match kind {
        Kind::Riscv => match rv_isa::word::decode(word) {
            Some(instr) => writeln!(out, "{}", RiscvAt { address, instr }),
            None => writeln!(out, ".word\t0x{word:x}"),
        },
        Kind::Mips => match mips_isa::word::decode(word) {
            Some(instr) => writeln!(out, "{}", MipsAt { address, instr }),
            None => writeln!(out, ".word\t0x{word:x}"),
        },
    }
}
