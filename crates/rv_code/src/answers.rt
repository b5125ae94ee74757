//! Questions: their answers as 1 or 0, and branches.
ghost use Rattle.std.specs.Prelude.{◌≡◌, ◌+◌, ◌^◌, ◌≤◌, ◌++◌, OnOk};
ghost use Rattle.ec_generate.specs.Puts.{CanPutQuestion, CanPutSource};
ghost use Rattle.ec_machine_code.specs.Speaks.{words_end};
ghost use Rattle.rv_isa.specs.Words.{word_of};
ghost use Rattle.rv_code.specs.Words as spec;

use crate::instructions::{
    A, B, ZERO, branch, jump, jump_there, lui, on_number, on_registers, put,
};
use crate::numbers::{is_zero, small};
use crate::sizes::fetch_size;
use crate::sources::{put_both, put_source, register_of};
use crate::work::{put_difference, put_one, put_two};
use ec_base::list::Seq;
use ec_machine_code::step::{Question, Relation, Source};
use rv_isa::field::{BranchOffset, Register, Twelve, high_part, low_part};
use rv_isa::instr::{Branch, Immediate, Instr, Operation};
use std::alloc::AllocError;

/// Where code starts, in bytes.
const CODE_BASE: u32 = 0x0040_0000;

/// Two to the power of the bits of a branch's offset.
const ROUND: u32 = 0x2000;

const ONE: Twelve = Twelve { bits: 1 };

// ---- answers in registers

fn put_less(
    words: &mut Seq<u32>,
    rd: Register,
    left: Source,
    right: Source,
) -> Result<(), AllocError>
    requires left { CanPutSource 10 left }
    requires right { CanPutSource 10 right }
    ensures { OnOk result (words.new ≡ words.old ++ spec.less_words rd.number left right) }
{
    match small(right) {
        Some(n) => put_one(words, Immediate::Slti, rd, left, n),
        None => put_two(words, Operation::Slt, rd, left, right),
    }
}

/// The register that has 0 just where both are the same, behind the words of `put_apart`.
fn apart_register(left: Source, right: Source) -> Register
    requires { CanPutSource 10 left }
    ensures { result.number ≡ spec.apart_register left right }
{
    if is_zero(right) {
        register_of(A, left)
    } else {
        A
    }
}

fn put_apart(words: &mut Seq<u32>, left: Source, right: Source) -> Result<(), AllocError>
    requires left { CanPutSource 10 left }
    requires right { CanPutSource 10 right }
    ensures { OnOk result (words.new ≡ words.old ++ spec.apart_words left right) }
{
    if is_zero(right) {
        put_source(words, A, left)
    } else {
        put_difference(words, A, left, right)
    }
}

/// Whether a register has 0, or whether it doesn't.
fn zero_test(wanted: bool, rd: Register, rs: Register) -> Instr
    ensures { word_of result ≡ spec.zero_word wanted rd.number rs.number }
{
    if wanted {
        on_number(Immediate::Sltiu, rd, rs, ONE)
    } else {
        on_registers(Operation::Sltu, rd, ZERO, rs)
    }
}

fn put_compared(
    words: &mut Seq<u32>,
    wanted: bool,
    rd: Register,
    left: Source,
    right: Source,
) -> Result<(), AllocError>
    requires left { CanPutSource 10 left }
    requires right { CanPutSource 10 right }
    ensures { OnOk result (words.new ≡ words.old ++ spec.compared_words wanted rd.number left right) }
{
    put_apart(words, left, right)?;
    put(words, zero_test(wanted, rd, apart_register(left, right)))
}

fn put_same(
    words: &mut Seq<u32>,
    wanted: bool,
    rd: Register,
    left: Source,
    right: Source,
) -> Result<(), AllocError>
    requires left { CanPutSource 10 left }
    requires right { CanPutSource 10 right }
    ensures { OnOk result (words.new ≡ words.old ++ spec.same_words wanted rd.number left right) }
{
    match left {
        Source::Word(_) => put_compared(words, wanted, rd, right, left),
        Source::Home(_) => put_compared(words, wanted, rd, left, right),
    }
}

/// Writes the words by which a register gets 1 or 0 for a question. The error is want of memory.
pub(crate) fn put_answer(
    words: &mut Seq<u32>,
    rd: Register,
    question: Question,
) -> Result<(), AllocError>
    requires { CanPutQuestion 10 question }
    ensures { OnOk result (words.new ≡ words.old
        ++ spec.answer_words question.relation question.wanted rd.number question.left question.right) }
{
    match question.relation {
        Relation::Same => put_same(words, question.wanted, rd, question.left, question.right),
        Relation::Less => {
            if question.wanted {
                put_less(words, rd, question.left, question.right)
            } else {
                put_less(words, A, question.left, question.right)?;
                put(words, on_number(Immediate::Xori, rd, A, ONE))
            }
        }
    }
}

// ---- branches and jumps

/// The branch that is taken where a relation comes out as wanted.
fn branch_of(relation: Relation, wanted: bool) -> Branch
    ensures { result ≡ spec.branch_of relation wanted }
{
    match relation {
        Relation::Same => { if wanted { Branch::Beq } else { Branch::Bne } }
        Relation::Less => { if wanted { Branch::Blt } else { Branch::Bge } }
    }
}

/// The branch of a question on its registers.
fn branch_on(question: Question, wanted: bool, offset: BranchOffset) -> Instr
    requires { CanPutQuestion 10 question }
    ensures { word_of result ≡ spec.branch_word question wanted offset.bits }
{
    branch(
        branch_of(question.relation, wanted),
        register_of(A, question.left),
        register_of(B, question.right),
        offset,
    )
}

/// How far it is from the branch of a question at a word to another word.
fn near_offset(question: Question, from: u32, to: u32) -> BranchOffset
    requires from { from ≤ words_end }
    requires to { to ≤ words_end }
    requires back { from ≤ to + 1020 }
    ensures { result.bits ≡ spec.branch_distance (from + spec.fetch_size question) to }
{
    let at = from + fetch_size(question);
    BranchOffset {
        bits: (ROUND + 4 * to - 4 * at) % ROUND,
    }
}

/// Writes a question that leads near. The error is want of memory.
pub(crate) fn put_near(
    words: &mut Seq<u32>,
    question: Question,
    from: u32,
    to: u32,
) -> Result<(), AllocError>
    requires homes { CanPutQuestion 10 question }
    requires from { from ≤ words_end }
    requires to { to ≤ words_end }
    requires back { from ≤ to + 1020 }
    ensures { OnOk result (words.new ≡ words.old ++ spec.near_words question from to) }
{
    put_both(words, question.left, question.right)?;
    let offset = near_offset(question, from, to);
    put(words, branch_on(question, question.wanted, offset))
}

/// Writes a question that leads as far as a jump reaches. The error is want of memory.
pub(crate) fn put_middle(
    words: &mut Seq<u32>,
    question: Question,
    from: u32,
    to: u32,
) -> Result<(), AllocError>
    requires homes { CanPutQuestion 10 question }
    requires from { from + spec.fetch_size question + 2 ≤ words_end }
    requires to { to ≤ words_end }
    requires back { from + 8 ≤ to + 2 ^ 18 }
    ensures { OnOk result (words.new ≡ words.old ++ spec.middle_words question from to) }
{
    put_both(words, question.left, question.right)?;
    let past = BranchOffset { bits: 8 };
    put(words, branch_on(question, !question.wanted, past))?;
    put(words, jump(from + fetch_size(question) + 1, to))
}

/// Writes a question that leads anywhere. The error is want of memory.
pub(crate) fn put_far(words: &mut Seq<u32>, question: Question, to: u32) -> Result<(), AllocError>
    requires homes { CanPutQuestion 10 question }
    requires room { to ≤ words_end }
    ensures { OnOk result (words.new ≡ words.old ++ spec.far_words question to) }
{
    put_both(words, question.left, question.right)?;
    let past = BranchOffset { bits: 12 };
    put(words, branch_on(question, !question.wanted, past))?;
    put_far_jump(words, to)
}

/// Writes a jump to anywhere. The error is want of memory.
pub(crate) fn put_far_jump(words: &mut Seq<u32>, to: u32) -> Result<(), AllocError>
    requires { to ≤ words_end }
    ensures { OnOk result (words.new ≡ words.old ++ spec.far_jump_words to) }
{
    let address = CODE_BASE + 4 * to;
    put(words, lui(A, high_part(address)))?;
    put(words, jump_there(A, low_part(address)))
}
