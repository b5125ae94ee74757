//! A program as a plain run of it needs it: its text, its types, its core, its lines, and the names of its operations.
ghost use Rattle.std.specs.Prelude.{◌≡◌, IfOk, IfSome, IfNone};
ghost use Rattle.ec_meaning.specs.Programs as spec;
ghost use Rattle.ec_meaning.specs.Kept.{AreLines};

use crate::types::number_of;
use ec_core::{At, Class, Constant, Core, Kind, Operation};
use ec_types::conform::TypeTable;
use ec_types::names::Names;
use ec_world::class::{ClassNo, NameNo};
use ec_world::value::OpNo;
use std::alloc::{AllocError, Global};

/// A text that is accepted, with the table of its types and its core; and what is looked up in them often.
#[derive(Drop)]
pub struct Program<'a> {
    text: &'a [u8],
    table: &'a TypeTable,
    core: &'a Core,
    /// The line of each byte of the text, and of its end, from 1.
    lines: Vec<u32>,
    /// The names of the operations of bodies, in the order of the text.
    names: Names,
    ghost lines_known: { AreLines text.now lines.items },
    ghost names_known: { names ≡ spec.operation_names core.now.operations },
}

impl<'a> Program<'a> {
    ghost use Rattle.ec_meaning.specs.Sources.{source_of, source_with};
    ghost use Rattle.ec_meaning.specs.Steps.{captured_by};

    /// A program of these parts. The error is want of memory, or a text of more than 4294967294 bytes, whose lines may
    /// have more than 32 bits.
    pub fn new(
        alloc: Global,
        text: &'a [u8],
        table: &'a TypeTable,
        core: &'a Core,
    ) -> Result<Program<'a>, AllocError>
        ensures { IfOk result (λ program. source_of program ≡ source_with text.now table.now core.now) }
    {
        let lines = lines_of(alloc, text)?;
        let names = names_of(alloc, core.operations.as_slice())?;
        Ok(Program {
            text,
            table,
            core,
            lines,
            names,
        })
    }

    /// The text.
    pub(crate) fn text(&self) -> &'a [u8]
        ensures { result.now ≡ (source_of self.now).text }
    {
        self.text
    }

    /// The table of the types.
    pub fn table(&self) -> &'a TypeTable
        ensures { result.now ≡ (source_of self.now).table }
    {
        self.table
    }

    /// The core.
    pub fn core(&self) -> &'a Core
        ensures { result.now ≡ (source_of self.now).core }
    {
        self.core
    }

    /// The line of a place in the text, from 1. That of a place beyond the text is that of its end.
    pub fn line(&self, at: At) -> u32
        ensures { result ≡ spec.line (source_of self.now) at }
    {
        match self.lines.get(at as usize) {
            Some(line) => *line,
            None => self.lines[self.text.len()],
        }
    }

    /// The number of a name of operations. The error is want of memory, or a number of more than 32 bits.
    pub fn name_number(&self, name: &[u8]) -> Result<NameNo, AllocError>
        ensures { IfOk result (λ number. number ≡ spec.name_number (source_of self.now) name.now) }
    {
        match self.names.first(name)? {
            Some(number) => number_of(number),
            None => number_of(self.names.len()),
        }
    }

    /// The class whose type has a number, by its place among the classes. The error is a place of more than 32 bits.
    pub fn class_number(&self, number: usize) -> Result<ClassNo, AllocError>
        ensures { IfOk result (λ class. class ≡ spec.class_number (source_of self.now) number) }
    {
        let place = class_place(self.core.classes.as_slice(), number);
        Ok(ClassNo::Made(number_of(place)?))
    }

    /// How many names the objects of a class capture.
    pub fn captured_by(&self, class: ClassNo) -> usize
        ensures { result ≡ captured_by (source_of self.now) class }
    {
        match class {
            ClassNo::Made(k) => match self.core.classes.get(k as usize) {
                Some(class) => class.captured.len(),
                None => 0,
            },
            ClassNo::Node | ClassNo::Program | ClassNo::Vector(_) => 0,
        }
    }

    /// The place of a constant, by its number, among those that have values.
    pub fn constant_number(&self, number: usize) -> usize
        ensures { result ≡ spec.constant_number (source_of self.now) number }
    {
        constant_place(self.core.constants.as_slice(), number)
    }

    /// The operation of a number other than 0.
    pub(crate) fn operation(&self, op: OpNo) -> Option<&'a Operation>
        ensures some { IfSome result (λ o. spec.operation_at (source_of self.now) op ≡ Some o.now) }
        ensures none { IfNone result (spec.operation_at (source_of self.now) op ≡ None) }
    {
        if op == 0 {
            return None;
        }
        self.core.operations.get(op as usize - 1)
    }
}

/// The line of each byte of a text, and of its end. The error is want of memory, or a text of more than 4294967294 bytes.
fn lines_of(alloc: Global, text: &[u8]) -> Result<Vec<u32>, AllocError>
    ensures { IfOk result (λ lines. AreLines text.now lines.items) }
{
    if text.len() >= u32::MAX as usize {
        return Err(AllocError);
    }
    let mut lines = Vec::new(alloc);
    let mut line = 1;
    lines.push(line)?;
    for b in text {
        if *b == b'\n' {
            line += 1;
        }
        lines.push(line)?;
    }
    Ok(lines)
}

/// The names of the operations of bodies.
fn names_of(alloc: Global, operations: &[Operation]) -> Result<Names, AllocError>
    ensures { IfOk result (λ names. names ≡ spec.operation_names operations.now) }
{
    let mut names = Names::new(alloc);
    for o in operations {
        if is_named(o.kind) {
            names.push(o.name.as_slice())?;
        }
    }
    Ok(names)
}

/// Whether it is an operation of a body, by its name.
pub(crate) fn is_named(kind: Kind) -> bool
    ensures { result ≡ spec.is_named kind }
{
    match kind {
        Kind::Named => true,
        Kind::Initial | Kind::Process => false,
    }
}

/// The place of the first class whose type has a number; how many classes there are, where none has.
fn class_place(classes: &[Class], number: usize) -> usize
    ensures { result ≡ spec.class_from 0 classes.now number }
{
    for (place, class) in classes.iter().enumerate() {
        if class.number == number {
            return place;
        }
    }
    classes.len()
}

/// The place of the first constant of a number; how many constants there are, where none has it.
fn constant_place(constants: &[Constant], number: usize) -> usize
    ensures { result ≡ spec.constant_from 0 constants.now number }
{
    for (place, constant) in constants.iter().enumerate() {
        if constant.number == number {
            return place;
        }
    }
    constants.len()
}
