//! How many words there are of steps and questions.
ghost use Rattle.std.specs.Prelude.{◌≡◌, ◌≤◌, length};
ghost use Rattle.rv_code.specs.Sizes as sizes;
ghost use Rattle.rv_code.specs.Words as spec;

use crate::numbers::{is_small, is_zero, small, small_negative};
use ec_code::code::Arithmetic;
use ec_machine_code::homes::Home;
use ec_machine_code::step::{Question, Relation, Source, Step};
use rv_isa::field::low_part;

fn number_size(n: u32) -> u32
    ensures { result ≡ sizes.number_size n }
{
    if is_small(n) {
        1
    } else if low_part(n).bits == 0 {
        1
    } else {
        2
    }
}

fn source_size(source: Source) -> u32
    ensures is { result ≡ sizes.source_size source }
    ensures few { result ≤ 2 }
{
    match source {
        Source::Home(Home::Slot(_)) => 1,
        Source::Home(Home::Register(_)) => 0,
        Source::Word(n) => { if n == 0 { 0 } else { number_size(n) } }
    }
}

fn target_size(into: Home) -> u32
    ensures is { result ≡ sizes.target_size into }
    ensures few { result ≤ 1 }
{
    match into {
        Home::Slot(_) => 1,
        Home::Register(_) => 0,
    }
}

fn two_size(left: Source, right: Source) -> u32
    ensures is { result ≡ sizes.two_size left right }
    ensures few { result ≤ 5 }
{
    source_size(left) + source_size(right) + 1
}

fn one_size(left: Source) -> u32
    ensures is { result ≡ sizes.one_size left }
    ensures few { result ≤ 5 }
{
    source_size(left) + 1
}

fn sum_size(left: Source, right: Source) -> u32
    ensures is { result ≡ sizes.sum_size (spec.small left) (spec.small right) left right }
    ensures few { result ≤ 5 }
{
    match small(right) {
        Some(_) => one_size(left),
        None => match small(left) {
            Some(_) => one_size(right),
            None => two_size(left, right),
        },
    }
}

/// With a number that an immediate spells where there is one.
fn with_number_size(number: Option<u32>, left: Source, right: Source) -> u32
    ensures is { result ≡ sizes.with_number_size number left right }
    ensures few { result ≤ 5 }
{
    match number {
        Some(_) => one_size(left),
        None => two_size(left, right),
    }
}

fn work_size(how: Arithmetic, left: Source, right: Source) -> u32
    ensures is { result ≡ sizes.work_size how left right }
    ensures few { result ≤ 5 }
{
    match how {
        Arithmetic::Sum => sum_size(left, right),
        Arithmetic::Difference => with_number_size(small_negative(right), left, right),
        Arithmetic::Product => two_size(left, right),
        Arithmetic::Quotient => two_size(left, right),
        Arithmetic::Remainder => two_size(left, right),
    }
}

fn apart_size(left: Source, right: Source) -> u32
    ensures is { result ≡ sizes.apart_size left right }
    ensures few { result ≤ 5 }
{
    if is_zero(right) {
        source_size(left)
    } else {
        with_number_size(small_negative(right), left, right)
    }
}

fn same_size(left: Source, right: Source) -> u32
    ensures is { result ≡ sizes.same_size left right }
    ensures few { result ≤ 6 }
{
    match left {
        Source::Word(_) => apart_size(right, left) + 1,
        Source::Home(_) => apart_size(left, right) + 1,
    }
}

fn answer_size(question: Question) -> u32
    ensures is { result ≡ sizes.answer_size question.relation question.wanted question.left question.right }
    ensures few { result ≤ 6 }
{
    let Question {
        relation,
        left,
        right,
        wanted,
    } = question;
    match relation {
        Relation::Same => same_size(left, right),
        Relation::Less => {
            let less = with_number_size(small(right), left, right);
            if wanted { less } else { less + 1 }
        }
    }
}

fn move_size(into: Home, from: Source) -> u32
    ensures is { result ≡ sizes.move_size into from }
    ensures few { result ≤ 3 }
{
    match into {
        Home::Slot(_) => source_size(from) + 1,
        Home::Register(_) => match from {
            Source::Home(_) => 1,
            Source::Word(n) => number_size(n),
        },
    }
}

/// How many words a step has.
pub(crate) fn step_size(step: Step) -> u32
    ensures is { result ≡ sizes.step_size step }
    ensures few { result ≤ 7 }
{
    match step {
        Step::Move { into, from } => move_size(into, from),
        Step::Itself { into } => 1 + target_size(into),
        Step::Field { into, .. } => 1 + target_size(into),
        Step::SetField { from, .. } => source_size(from) + 1,
        Step::Constant { into, .. } => 2 + target_size(into),
        Step::Work {
            how,
            into,
            left,
            right,
        } => work_size(how, left, right) + target_size(into),
        Step::Decide { into, question } => answer_size(question) + target_size(into),
    }
}

/// How many words bring the sources of a question.
#[tactic(auto, using(crate::specs::Sized::both_length))]
pub(crate) fn fetch_size(question: Question) -> u32
    ensures is { result ≡ spec.fetch_size question }
    ensures few { result ≤ 4 }
{
    source_size(question.left) + source_size(question.right)
}
