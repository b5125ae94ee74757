//! A program whose constants and classes are found by their numbers.
ghost use Rattle.std.specs.Prelude.{◌≡◌, Some, IfOk, OnOk};
ghost use Rattle.std.specs.BTreeMap.{Updates};
ghost use Rattle.std.specs.Ordering.{nat_cmp};
ghost use Rattle.ec_expressions.specs.Numbers.{ArePlaces, class_numbers, constant_numbers};
ghost use Rattle.ec_meaning.specs.Programs as source;
ghost use Rattle.ec_meaning.specs.Sources.{source_of};

use ec_core::{Class, Constant};
use ec_meaning::source::Program;
use ec_meaning::types::number_of;
use ec_world::class::ClassNo;
use std::alloc::{AllocError, Global};
use std::collections::BTreeMap;

/// A program, with the places of its constants and of its classes among all, by their numbers.
#[derive(Drop)]
pub struct Tables<'a> {
    pub program: &'a Program<'a>,
    constants: BTreeMap<usize, usize>,
    classes: BTreeMap<usize, usize>,
    ghost constants_known: { ArePlaces constants (constant_numbers (source_of program.now).core.constants) },
    ghost classes_known: { ArePlaces classes (class_numbers (source_of program.now).core.classes) },
}

impl<'a> Tables<'a> {
    /// Those of a program. The error is want of memory.
    pub fn new(alloc: Global, program: &'a Program<'a>) -> Result<Tables<'a>, AllocError>
        ensures { IfOk result (λ tables. tables.program.now ≡ program.now) }
    {
        let constants = places_of_constants(alloc, program.core().constants.as_slice())?;
        let classes = places_of_classes(alloc, program.core().classes.as_slice())?;
        Ok(Tables {
            program,
            constants,
            classes,
        })
    }

    /// The place of a constant, by its number, among those that have values.
    pub(crate) fn constant_number(&self, number: usize) -> usize
        ensures { result ≡ source.constant_number (source_of self.now.program.now) number }
    {
        let count = self.program.core().constants.len();
        self.constants.get(&number).copied().unwrap_or(count)
    }

    /// The class whose type has a number, by its place among the classes. The error is a place of more than 32 bits.
    pub fn class_number(&self, number: usize) -> Result<ClassNo, AllocError>
        ensures { IfOk result (λ class. class ≡ source.class_number (source_of self.now.program.now) number) }
    {
        Ok(ClassNo::Made(number_of(self.class_place(number))?))
    }

    fn class_place(&self, number: usize) -> usize
        ensures { result ≡ source.class_from 0 (source_of self.now.program.now).core.classes number }
    {
        let count = self.program.core().classes.len();
        self.classes.get(&number).copied().unwrap_or(count)
    }
}

/// The places of constants by their numbers; of a number that is there twice the first. The error is want of memory.
fn places_of_constants(
    alloc: Global,
    constants: &[Constant],
) -> Result<BTreeMap<usize, usize>, AllocError>
    ensures { IfOk result (λ places. ArePlaces places (constant_numbers constants.now)) }
{
    let mut places = BTreeMap::new(alloc);
    for n in (0..constants.len()).rev() {
        let constant = &constants[n];
        enter(&mut places, constant.number, n)?;
    }
    Ok(places)
}

/// The places of classes by the numbers of their types; of a number that is there twice the first. The error is want of memory.
fn places_of_classes(alloc: Global, classes: &[Class]) -> Result<BTreeMap<usize, usize>, AllocError>
    ensures { IfOk result (λ places. ArePlaces places (class_numbers classes.now)) }
{
    let mut places = BTreeMap::new(alloc);
    for n in (0..classes.len()).rev() {
        let class = &classes[n];
        enter(&mut places, class.number, n)?;
    }
    Ok(places)
}

/// A number gets a place, in the stead of any that it had. The error is want of memory.
fn enter(places: &mut BTreeMap<usize, usize>, number: usize, place: usize) -> Result<(), AllocError>
    ensures { OnOk result (Updates nat_cmp places.old places.new number (Some place)) }
{
    places.insert(number, place)?;
    Ok(())
}
