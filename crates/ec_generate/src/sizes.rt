//! How many words there are, and where they begin.
ghost use Rattle.std.specs.Prelude.{◌≡◌, ℕ, ◌≤◌, ◌<◌, ◌+◌, ◌*◌, ◌^◌, IfOk, Some, drop, length, slice_get};
ghost use Rattle.ec_generate.specs.Puts.{most_jump_words, most_words, pick};
ghost use Rattle.ec_generate.specs.Sites.{ArePlaces, IsLed, home_there, most_steps, ops_there, size_there};
ghost use Rattle.ec_machine_code.specs.Direct.{laid_op};
ghost use Rattle.ec_machine_code.specs.Layout as layout;
ghost use Rattle.ec_machine_code.specs.Layout.{IsOrder, chosen};

use crate::kind::{Kind, Span};
use crate::lowering::opposite;
use crate::site::Site;
use ec_base::list::Seq;
use ec_code::code::Op;
use ec_machine_code::step::{Ending, Question};
use std::alloc::{AllocError, Global};

/// How many words lead on to a step, where another one stands next.
fn on_size<K: Kind>(kind: &K, span: Span, next: usize, to: usize) -> u32
    ensures is { result ≡ layout.on_size (pick K.vocabularies span) next to }
    ensures few { result ≤ most_jump_words }
{
    if next == to { 0 } else { kind.jump_size(span) }
}

/// How many words a question of step q has, whose target is so many steps past the next one.
fn branch_size<K: Kind>(
    kind: &K,
    span: Span,
    next: usize,
    q: usize,
    question: Question,
    over: u32,
) -> u32
    requires { q < 2 ^ 32 }
    ensures is { result ≡ layout.branch_size (pick K.vocabularies span) next q question over }
    ensures few { result ≤ most_words + most_jump_words }
{
    if next == q + over as usize + 1 {
        kind.ask_size(span, opposite(question))
    } else {
        kind.ask_size(span, question) + on_size(kind, span, next, q + 1)
    }
}

/// How many words the way of going on behind step q has, where another one stands next.
fn ending_size<K: Kind>(kind: &K, span: Span, next: usize, q: usize, ending: Option<Ending>) -> u32
    requires { q < 2 ^ 32 }
    ensures is { result ≡ layout.ending_size (pick K.vocabularies span) next q ending }
    ensures few { result ≤ most_words + most_jump_words }
{
    match ending {
        None => on_size(kind, span, next, q + 1),
        Some(Ending::Branch { question, over }) => branch_size(kind, span, next, q, question, over),
        Some(Ending::Jump { over }) => on_size(kind, span, next, q + over as usize + 1),
        Some(Ending::Again { back }) => on_size(kind, span, next, q.saturating_sub(back as usize)),
        Some(Ending::Stop) => 1 + on_size(kind, span, next, q + 1),
    }
}

/// How many words the step of three-address code at place q has, where another one stands next.
fn op_size<K: Kind>(kind: &K, span: Span, site: &Site<'_>, next: usize, q: usize, op: &Op) -> u32
    requires led { IsLed site.now }
    requires there { q < length site.now.code.now }
    requires few { length site.now.code.now ≤ most_steps }
    ensures is { result ≡ layout.op_size (pick K.vocabularies span) (home_there site.now) next q
        (laid_op site.now.code.now q op.now) }
    ensures few { result ≤ 3 * most_words }
{
    let ending = ending_size(kind, span, next, q, site.ending_at(q, op));
    match site.step_at(q, op) {
        Some(step) => kind.step_size(span, step) + ending,
        None => ending,
    }
}

/// How many words step q has, which stands at a spot of the order.
fn spot_size<K: Kind>(kind: &K, span: Span, site: &Site<'_>, spot: usize, q: usize) -> u32
    requires led { IsLed site.now }
    requires ordered { IsOrder (length site.now.code.now) site.now.order.now }
    requires there { slice_get site.now.order.now spot ≡ Some q }
    requires few { length (ops_there site.now) ≤ most_steps }
    ensures is { result ≡ layout.size_at (pick K.vocabularies span) (home_there site.now) (ops_there site.now) q
        (drop (spot + 1) site.now.order.now) }
    ensures few { result ≤ 3 * most_words }
{
    let next = site.next_at(spot);
    op_size(kind, span, site, next, q, &site.code.at(q).op)
}

/// How many words an operation's code has.
fn size_of<K: Kind>(kind: &K, span: Span, site: &Site<'_>) -> u32
    requires led { IsLed site.now }
    requires ordered { IsOrder (length site.now.code.now) site.now.order.now }
    requires few { length (ops_there site.now) ≤ most_steps }
    ensures is { result ≡ size_there (pick K.vocabularies span) site.now }
{
    let mut size = 0;
    for spot in 0..site.order.len() {
        size += spot_size(kind, span, site, spot, *site.order.at(spot));
    }
    size
}

/// How far the words reach that an operation gets: no further than its code goes.
pub(crate) fn span_of<K: Kind>(kind: &K, site: &Site<'_>) -> Span
    requires led { IsLed site.now }
    requires ordered { IsOrder (length site.now.code.now) site.now.order.now }
    requires few { length (ops_there site.now) ≤ most_steps }
    ensures { pick K.vocabularies result
        ≡ chosen K.vocabularies (home_there site.now) (ops_there site.now) site.now.order.now }
{
    if size_of(kind, Span::Near, site) <= kind.reach(Span::Near) {
        return Span::Near;
    }
    if size_of(kind, Span::Middle, site) <= kind.reach(Span::Middle) {
        return Span::Middle;
    }
    Span::Far
}

/// How many words stand before each step of an operation's code, and in all. The error is want of memory.
pub(crate) fn places<K: Kind>(
    alloc: Global,
    kind: &K,
    span: Span,
    site: &Site<'_>,
) -> Result<Seq<u32>, AllocError>
    requires led { IsLed site.now }
    requires ordered { IsOrder (length site.now.code.now) site.now.order.now }
    requires few { length (ops_there site.now) ≤ most_steps }
    ensures { IfOk result (λ places. ArePlaces (pick K.vocabularies span) site.now places) }
{
    let count = site.code.len();
    let mut places = vec![in alloc; 0; count + 1]?;
    let mut at = 0;
    for spot in 0..site.order.len() {
        let q = *site.order.at(spot);
        places[q] = at;
        at += spot_size(kind, span, site, spot, q);
    }
    places[count] = at;
    Ok(Seq::from_vec(places))
}
