//! The kind of machine.
ghost use Rattle.rv_code.specs.Sized.{rv_sized};
ghost use Rattle.rv_code.specs.Words.{rv_vocabularies};

use crate::answers::{put_far, put_far_jump, put_middle, put_near};
use crate::instructions::{jump, put};
use crate::sizes::{fetch_size, step_size};
use crate::steps::put_step;
use ec_base::list::Seq;
use ec_generate::kind::{Kind, Span};
use ec_machine_code::step::{Question, Step};
use rv_isa::instr::Instr;
use std::alloc::AllocError;

/// A RISC-V machine.
pub struct Riscv;

impl Kind for Riscv {
    ghost vocabularies = { rv_vocabularies };

    ghost homes = { 10 };

    ghost sized = { rv_sized };

    fn home_registers(&self) -> u32 {
        10
    }

    fn reach(&self, span: Span) -> u32 {
        match span {
            Span::Near => 0x3FC,
            Span::Middle => 0x3_FFF8,
            Span::Far => 0x03EF_FFFF,
        }
    }

    #[tactic(auto, using(crate::proofs::Spans::steps_size))]
    fn step_size(&self, _span: Span, step: Step) -> u32 {
        step_size(step)
    }

    fn ask_size(&self, span: Span, question: Question) -> u32 {
        let fetched = fetch_size(question);
        match span {
            Span::Near => fetched + 1,
            Span::Middle => fetched + 2,
            Span::Far => fetched + 3,
        }
    }

    fn jump_size(&self, span: Span) -> u32 {
        match span {
            Span::Near => 1,
            Span::Middle => 1,
            Span::Far => 2,
        }
    }

    #[tactic(auto, using(crate::proofs::Spans::same_steps))]
    fn put_step(&self, _span: Span, step: Step, words: &mut Seq<u32>) -> Result<(), AllocError> {
        put_step(words, step)
    }

    fn put_ask(
        &self,
        span: Span,
        question: Question,
        from: u32,
        to: u32,
        words: &mut Seq<u32>,
    ) -> Result<(), AllocError> {
        match span {
            Span::Near => put_near(words, question, from, to),
            Span::Middle => put_middle(words, question, from, to),
            Span::Far => put_far(words, question, to),
        }
    }

    fn put_jump(
        &self,
        span: Span,
        from: u32,
        to: u32,
        words: &mut Seq<u32>,
    ) -> Result<(), AllocError> {
        match span {
            Span::Near => put(words, jump(from, to)),
            Span::Middle => put(words, jump(from, to)),
            Span::Far => put_far_jump(words, to),
        }
    }

    #[tactic(auto, using(crate::proofs::Spans::same_stop))]
    fn put_stop(&self, _span: Span, words: &mut Seq<u32>) -> Result<(), AllocError> {
        put(words, Instr::Ecall)
    }
}
