//! What a kind of machine writes.
ghost use Rattle.std.specs.Prelude.{◌≡◌, ℕ, ◌+◌, ◌≤◌, [], ◌∷◌, ◌++◌, OnOk, length};
ghost use Rattle.ec_generate.specs.Puts.{CanPut, CanPutQuestion, Sized, most_jump_words, most_words, pick};
ghost use Rattle.ec_machine_code.specs.Layout.{Vocabularies};
ghost use Rattle.ec_machine_code.specs.Speaks.{words_end};

use ec_base::list::Seq;
use ec_machine_code::step::{Question, Step};
use std::alloc::AllocError;

/// How far the words of an operation reach: those that reach less far are fewer.
#[derive(Clone, Copy, PartialEq, Eq, Debug)]
pub enum Span {
    Near,
    Middle,
    Far,
}

/// The words of a kind of machine. Each error is want of memory.
pub trait Kind {
    /// The words, by how far they reach.
    ghost vocabularies: { Vocabularies };

    /// How many registers are homes.
    ghost homes: { ℕ };

    /// How many registers are homes.
    fn home_registers(&self) -> u32
        ensures { result ≡ homes };

    /// How many words far questions and jumps reach.
    fn reach(&self, span: Span) -> u32
        ensures { result ≡ (pick vocabularies span).reach };

    /// How many words a step has.
    fn step_size(&self, span: Span, step: Step) -> u32
        ensures is { result ≡ length ((pick vocabularies span).step_words step) }
        ensures few { result ≤ most_words };

    /// How many words a question has.
    fn ask_size(&self, span: Span, question: Question) -> u32
        ensures is { result ≡ (pick vocabularies span).ask_size question }
        ensures few { result ≤ most_words };

    /// How many words a jump has.
    fn jump_size(&self, span: Span) -> u32
        ensures is { result ≡ (pick vocabularies span).jump_size }
        ensures few { result ≤ most_jump_words };

    /// Writes a step.
    fn put_step(&self, span: Span, step: Step, words: &mut Seq<u32>) -> Result<(), AllocError>
        requires { CanPut homes step }
        ensures { OnOk result (words.new ≡ words.old ++ (pick vocabularies span).step_words step) };

    /// Writes a question at a word that leads to another one.
    fn put_ask(
        &self,
        span: Span,
        question: Question,
        from: u32,
        to: u32,
        words: &mut Seq<u32>,
    ) -> Result<(), AllocError>
        requires homes { CanPutQuestion homes question }
        requires from { from + (pick vocabularies span).ask_size question ≤ words_end }
        requires to { to ≤ words_end }
        requires forward { to ≤ from + (pick vocabularies span).reach }
        requires back { from ≤ to + (pick vocabularies span).reach }
        ensures { OnOk result (words.new ≡ words.old ++ (pick vocabularies span).ask_words question from to) };

    /// Writes a jump at a word to another one.
    fn put_jump(
        &self,
        span: Span,
        from: u32,
        to: u32,
        words: &mut Seq<u32>,
    ) -> Result<(), AllocError>
        requires from { from + (pick vocabularies span).jump_size ≤ words_end }
        requires to { to ≤ words_end }
        requires forward { to ≤ from + (pick vocabularies span).reach }
        requires back { from ≤ to + (pick vocabularies span).reach }
        ensures { OnOk result (words.new ≡ words.old ++ (pick vocabularies span).jump_words from to) };

    /// Writes a stop.
    fn put_stop(&self, span: Span, words: &mut Seq<u32>) -> Result<(), AllocError>
        ensures { OnOk result (words.new ≡ words.old ++ (pick vocabularies span).stop_word ∷ []) };

    /// Sizes are what they say, and the far words reach all of the code.
    ghost sized: { Sized vocabularies };
}
