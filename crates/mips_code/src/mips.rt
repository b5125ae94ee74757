//! The kind of machine.
ghost use Rattle.mips_code.specs.Sized.{mips_sized, mips_vocabularies};

use crate::answers::{put_far, put_near};
use crate::instructions::{put, put_jump};
use crate::sizes::{branch_at, step_size};
use crate::steps::put_step;
use ec_base::list::Seq;
use ec_generate::kind::{Kind, Span};
use ec_machine_code::step::{Question, Step};
use mips_isa::instr::Instr;
use std::alloc::AllocError;

/// A MIPS machine.
pub struct Mips;

impl Kind for Mips {
    ghost vocabularies = { mips_vocabularies };

    ghost homes = { 6 };

    ghost sized = { mips_sized };

    fn home_registers(&self) -> u32 {
        6
    }

    fn reach(&self, span: Span) -> u32 {
        match span {
            Span::Near => 0x7FF8,
            Span::Middle | Span::Far => 0x0400_0000,
        }
    }

    #[tactic(auto, using(crate::proofs::Spans::steps_size))]
    fn step_size(&self, _span: Span, step: Step) -> u32 {
        step_size(step)
    }

    fn ask_size(&self, span: Span, question: Question) -> u32 {
        match span {
            Span::Near => branch_at(question) + 2,
            Span::Middle | Span::Far => branch_at(question) + 4,
        }
    }

    #[tactic(auto, using(crate::proofs::Spans::jumps_size))]
    fn jump_size(&self, _span: Span) -> u32 {
        2
    }

    #[tactic(auto, using(crate::proofs::Spans::same_steps))]
    fn put_step(&self, _span: Span, step: Step, words: &mut Seq<u32>) -> Result<(), AllocError> {
        put_step(words, step)
    }

    fn put_ask(
        &self,
        span: Span,
        question: Question,
        from: u32,
        to: u32,
        words: &mut Seq<u32>,
    ) -> Result<(), AllocError> {
        match span {
            Span::Near => put_near(words, question, from, to),
            Span::Middle | Span::Far => put_far(words, question, from, to),
        }
    }

    #[tactic(auto, using(crate::proofs::Spans::same_jumps))]
    fn put_jump(
        &self,
        _span: Span,
        _from: u32,
        to: u32,
        words: &mut Seq<u32>,
    ) -> Result<(), AllocError> {
        put_jump(words, to)
    }

    #[tactic(auto, using(crate::proofs::Spans::same_stop))]
    fn put_stop(&self, _span: Span, words: &mut Seq<u32>) -> Result<(), AllocError> {
        put(words, Instr::Syscall)
    }
}
