//! Words of questions that lead elsewhere, of jumps, and of stops.
use crate::steps::print_words;
use ec_base::list::Seq;
use ec_generate::kind::{Kind, Span};
use ec_machine_code::homes::Home;
use ec_machine_code::step::{Question, Relation, Source};
use mips_code::mips::Mips;
use rv_code::riscv::Riscv;
use std::alloc::Global;
use std::io;

/// Whether the first home is less than the second.
const LESS: Question = Question {
    relation: Relation::Less,
    left: Source::Home(Home::Register(0)),
    right: Source::Home(Home::Register(1)),
    wanted: true,
};

/// Whether the first home is less than 10.
const LESS_THAN_TEN: Question = Question {
    relation: Relation::Less,
    left: Source::Home(Home::Register(0)),
    right: Source::Word(10),
    wanted: true,
};

/// Whether the first home isn't 5.
const NOT_FIVE: Question = Question {
    relation: Relation::Same,
    left: Source::Home(Home::Register(0)),
    right: Source::Word(5),
    wanted: false,
};

/// Prints the words at word 100 that lead to word 110, and back.
pub fn print_riscv_ends(rt: &impl Print, alloc: Global) -> io::Result<()> {
    let mut words = Seq::new(alloc);
    Riscv.put_ask(Span::Near, LESS, 100, 110, &mut words)?;
    print_words(rt, "near r0 < r1", &words)?;
    let mut words = Seq::new(alloc);
    Riscv.put_ask(Span::Near, NOT_FIVE, 100, 110, &mut words)?;
    print_words(rt, "near not r0 = 5", &words)?;
    let mut words = Seq::new(alloc);
    Riscv.put_ask(Span::Middle, LESS, 100, 110, &mut words)?;
    print_words(rt, "middle r0 < r1", &words)?;
    let mut words = Seq::new(alloc);
    Riscv.put_ask(Span::Far, LESS, 100, 110, &mut words)?;
    print_words(rt, "far r0 < r1", &words)?;
    print_riscv_back(rt, alloc)?;
    print_riscv_jumps(rt, alloc)
}

fn print_riscv_back(rt: &impl Print, alloc: Global) -> io::Result<()> {
    let mut words = Seq::new(alloc);
    Riscv.put_ask(Span::Near, LESS, 110, 100, &mut words)?;
    print_words(rt, "near back r0 < r1", &words)?;
    let mut words = Seq::new(alloc);
    Riscv.put_ask(Span::Near, NOT_FIVE, 110, 100, &mut words)?;
    print_words(rt, "near back not r0 = 5", &words)?;
    let mut words = Seq::new(alloc);
    Riscv.put_ask(Span::Middle, LESS, 110, 100, &mut words)?;
    print_words(rt, "middle back r0 < r1", &words)
}

fn print_riscv_jumps(rt: &impl Print, alloc: Global) -> io::Result<()> {
    let mut words = Seq::new(alloc);
    Riscv.put_jump(Span::Near, 100, 110, &mut words)?;
    print_words(rt, "near jump", &words)?;
    let mut words = Seq::new(alloc);
    Riscv.put_jump(Span::Near, 110, 100, &mut words)?;
    print_words(rt, "near jump back", &words)?;
    let mut words = Seq::new(alloc);
    Riscv.put_jump(Span::Far, 100, 110, &mut words)?;
    print_words(rt, "far jump", &words)?;
    let mut words = Seq::new(alloc);
    Riscv.put_stop(Span::Near, &mut words)?;
    print_words(rt, "stop", &words)
}

/// Prints the words at word 100 that lead to word 110, and back.
pub fn print_mips_ends(rt: &impl Print, alloc: Global) -> io::Result<()> {
    let mut words = Seq::new(alloc);
    Mips.put_ask(Span::Near, LESS, 100, 110, &mut words)?;
    print_words(rt, "near r0 < r1", &words)?;
    let mut words = Seq::new(alloc);
    Mips.put_ask(Span::Near, LESS_THAN_TEN, 100, 110, &mut words)?;
    print_words(rt, "near r0 < 10", &words)?;
    let mut words = Seq::new(alloc);
    Mips.put_ask(Span::Near, NOT_FIVE, 100, 110, &mut words)?;
    print_words(rt, "near not r0 = 5", &words)?;
    let mut words = Seq::new(alloc);
    Mips.put_ask(Span::Far, LESS, 100, 110, &mut words)?;
    print_words(rt, "far r0 < r1", &words)?;
    print_mips_back(rt, alloc)?;
    print_mips_jumps(rt, alloc)
}

fn print_mips_back(rt: &impl Print, alloc: Global) -> io::Result<()> {
    let mut words = Seq::new(alloc);
    Mips.put_ask(Span::Near, LESS, 110, 100, &mut words)?;
    print_words(rt, "near back r0 < r1", &words)?;
    let mut words = Seq::new(alloc);
    Mips.put_ask(Span::Near, NOT_FIVE, 110, 100, &mut words)?;
    print_words(rt, "near back not r0 = 5", &words)
}

fn print_mips_jumps(rt: &impl Print, alloc: Global) -> io::Result<()> {
    let mut words = Seq::new(alloc);
    Mips.put_jump(Span::Near, 100, 110, &mut words)?;
    print_words(rt, "jump", &words)?;
    let mut words = Seq::new(alloc);
    Mips.put_jump(Span::Near, 110, 100, &mut words)?;
    print_words(rt, "jump back", &words)?;
    let mut words = Seq::new(alloc);
    Mips.put_stop(Span::Near, &mut words)?;
    print_words(rt, "stop", &words)
}
