//! Questions: their answers as 1 or 0, and branches.
ghost use Rattle.std.specs.Prelude.{◌≡◌, ℕ, ◌+◌, ◌-◌, ◌≤◌, [], ◌∷◌, ◌++◌, OnOk};
ghost use Rattle.ec_generate.specs.Puts.{CanPutQuestion, CanPutSource};
ghost use Rattle.ec_machine_code.specs.Speaks.{words_end};
ghost use Rattle.mips_code.specs.Sizes.{branch_words};
ghost use Rattle.mips_isa.specs.Words.{word_of};
ghost use Rattle.mips_code.specs.Words as spec;

use crate::instructions::{
    A, B, ZERO, branch, on_number, on_registers, put, put_delayed, put_jump,
};
use crate::numbers::small;
use crate::sizes::branch_at;
use crate::sources::{put_source, register_of};
use crate::work::{put_difference, put_one, put_two};
use ec_base::list::Seq;
use ec_machine_code::step::{Question, Relation, Source};
use mips_isa::field::{Register, Sixteen};
use mips_isa::instr::{Branch, Immediate, Instr, Operation};
use std::alloc::AllocError;

/// Two to the power of the bits of a branch's offset.
const ROUND: u32 = 0x1_0000;

const ONE: Sixteen = Sixteen { bits: 1 };

// ---- answers in registers

fn put_less(
    words: &mut Seq<u32>,
    rd: Register,
    left: Source,
    right: Source,
) -> Result<(), AllocError>
    requires left { CanPutSource 6 left }
    requires right { CanPutSource 6 right }
    ensures { OnOk result (words.new ≡ words.old ++ spec.less_words rd.number left right) }
{
    match small(right) {
        Some(n) => put_one(words, Immediate::Slti, rd, left, n),
        None => put_two(words, Operation::Slt, rd, left, right),
    }
}

/// Whether scratch has 0, or whether it doesn't.
fn zero_test(wanted: bool, rd: Register) -> Instr
    ensures { word_of result ≡ spec.zero_word wanted rd.number }
{
    if wanted {
        on_number(Immediate::Sltiu, rd, A, ONE)
    } else {
        on_registers(Operation::Sltu, rd, ZERO, A)
    }
}

/// Writes the words by which a register gets 1 or 0 for a question. The error is want of memory.
pub(crate) fn put_answer(
    words: &mut Seq<u32>,
    rd: Register,
    question: Question,
) -> Result<(), AllocError>
    requires { CanPutQuestion 6 question }
    ensures { OnOk result (words.new ≡ words.old
        ++ spec.answer_words question.relation question.wanted rd.number question.left question.right) }
{
    match question.relation {
        Relation::Same => {
            put_difference(words, A, question.left, question.right)?;
            put(words, zero_test(question.wanted, rd))
        }
        Relation::Less => {
            if question.wanted {
                put_less(words, rd, question.left, question.right)
            } else {
                put_less(words, A, question.left, question.right)?;
                put(words, on_number(Immediate::Xori, rd, A, ONE))
            }
        }
    }
}

// ---- branches

fn branch_of(wanted: bool) -> Branch
    ensures { result ≡ spec.branch_of wanted }
{
    if wanted { Branch::Beq } else { Branch::Bne }
}

/// Writes the words before the branch of a question. The error is want of memory.
fn put_compared(
    words: &mut Seq<u32>,
    relation: Relation,
    left: Source,
    right: Source,
) -> Result<(), AllocError>
    requires left { CanPutSource 6 left }
    requires right { CanPutSource 6 right }
    ensures { OnOk result (words.new ≡ words.old ++ spec.compared_words relation left right) }
{
    match relation {
        Relation::Same => {
            put_source(words, A, left)?;
            put_source(words, B, right)
        }
        Relation::Less => put_less(words, A, left, right),
    }
}

/// The branch of a question that is taken where its relation comes out as wanted.
fn branch_by(question: Question, wanted: bool, offset: Sixteen) -> Instr
    requires { CanPutQuestion 6 question }
    ensures { word_of result ≡ spec.branch_by question wanted offset.bits }
{
    match question.relation {
        Relation::Same => {
            let a = register_of(A, question.left);
            let b = register_of(B, question.right);
            branch(branch_of(wanted), a, b, offset)
        }
        Relation::Less => branch(branch_of(!wanted), A, ZERO, offset),
    }
}

/// Writes a question up to the no-op in the slot of its branch. The error is want of memory.
fn put_branch(
    words: &mut Seq<u32>,
    question: Question,
    wanted: bool,
    offset: Sixteen,
) -> Result<(), AllocError>
    requires { CanPutQuestion 6 question }
    ensures { OnOk result (words.new ≡ words.old ++ branch_words question wanted offset.bits) }
{
    put_compared(words, question.relation, question.left, question.right)?;
    put_delayed(words, branch_by(question, wanted, offset))
}

/// How far it is from the slot of the branch of a question at a word to another word.
fn near_offset(question: Question, from: u32, to: u32) -> Sixteen
    requires from { from ≤ words_end }
    requires to { to ≤ words_end }
    requires back { from ≤ to + 32760 }
    ensures { result.bits ≡ spec.branch_distance (from + spec.branch_at question + 1) to }
{
    let slot = from + branch_at(question) + 1;
    Sixteen {
        bits: (ROUND + to - slot) % ROUND,
    }
}

/// Writes a question that leads near. The error is want of memory.
#[tactic(auto, using(crate::proofs::Branches::near_is))]
pub(crate) fn put_near(
    words: &mut Seq<u32>,
    question: Question,
    from: u32,
    to: u32,
) -> Result<(), AllocError>
    requires homes { CanPutQuestion 6 question }
    requires from { from ≤ words_end }
    requires to { to ≤ words_end }
    requires back { from ≤ to + 32760 }
    ensures { OnOk result (words.new ≡ words.old ++ spec.near_words question from to) }
{
    let offset = near_offset(question, from, to);
    put_branch(words, question, question.wanted, offset)
}

/// Writes a question that leads anywhere: past a jump where the answer is no. The error is want of memory.
#[tactic(auto, using(crate::proofs::Branches::far_is))]
pub(crate) fn put_far(
    words: &mut Seq<u32>,
    question: Question,
    from: u32,
    to: u32,
) -> Result<(), AllocError>
    requires homes { CanPutQuestion 6 question }
    requires room { to ≤ words_end }
    ensures { OnOk result (words.new ≡ words.old ++ spec.far_words question from to) }
{
    put_branch(words, question, !question.wanted, Sixteen { bits: 3 })?;
    put_jump(words, to)
}
