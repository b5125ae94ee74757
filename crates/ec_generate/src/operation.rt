//! The words of an operation.
ghost use Rattle.std.specs.Prelude.{◌≡◌, ℕ, ◌≤◌, ◌<◌, ◌+◌, ◌∷◌, ◌++◌, true, false, IfOk, IsSome, OnOk, Some, None, length, map, slice_get};
ghost use Rattle.ec_machine_code.specs.Stops.{stop_of, stop_places};
ghost use Rattle.ec_generate.specs.Puts.{CanPutQuestion, pick};
ghost use Rattle.ec_generate.specs.Sites.{ArePlaces, CanPutAll, CanPutEnding, IsLed, IsMakeable, code_there, home_there};
ghost use Rattle.ec_generate.specs.Sites.{most_steps, ops_there, place_there, size_there};
ghost use Rattle.ec_machine_code.specs.Direct.{laid_op};
ghost use Rattle.ec_machine_code.specs.Layout as layout;
ghost use Rattle.ec_machine_code.specs.Layout.{IsOrder};
ghost use Rattle.ec_machine_code.specs.Lowering as lowering;
ghost use Rattle.ec_machine_code.specs.Speaks.{words_end};
ghost use Rattle.ec_target.specs.Code.{pc_of};

use crate::kind::{Kind, Span};
use crate::lowering::opposite;
use crate::site::Site;
use crate::sizes::places;
use ec_base::list::Seq;
use ec_code::code::Op;
use ec_machine_code::code::OperationCode;
use ec_machine_code::step::{Ending, Question};
use std::alloc::{AllocError, Global};

/// Where code starts, in bytes.
const CODE_BASE: u32 = 0x0040_0000;

/// Writes the steps on words for step q of three-address code. The error is want of memory.
fn put_steps<K: Kind>(
    kind: &K,
    span: Span,
    site: &Site<'_>,
    q: usize,
    op: &Op,
    words: &mut Seq<u32>,
) -> Result<(), AllocError>
    requires led { IsLed site.now }
    requires there { q < length site.now.code.now }
    requires puts { CanPutAll K.homes (lowering.steps_of (home_there site.now) (laid_op site.now.code.now q op.now)) }
    ensures { OnOk result (words.new ≡ words.old
        ++ layout.words_of_steps (pick K.vocabularies span)
        (lowering.steps_of (home_there site.now) (laid_op site.now.code.now q op.now))) }
{
    match site.step_at(q, op) {
        Some(step) => kind.put_step(span, step, words),
        None => Ok(()),
    }
}

/// The word at which step q of the code begins, which begins at word `start`.
fn word_at<K: Kind>(
    kind: &K,
    span: Span,
    site: &Site<'_>,
    places: &Seq<u32>,
    start: u32,
    q: usize,
) -> u32
    requires within { q ≤ length (ops_there site.now) }
    requires placed { ArePlaces (pick K.vocabularies span) site.now places.now }
    requires room { start + size_there (pick K.vocabularies span) site.now ≤ words_end }
    ensures is { result ≡ place_there (pick K.vocabularies span) site.now start q }
    ensures room { result ≤ start + size_there (pick K.vocabularies span) site.now }
{
    start + *places.at(q)
}

/// Writes what leads on to a step, where another one stands next: a jump, unless it is this one. The error is want of memory.
fn put_on<K: Kind>(
    kind: &K,
    span: Span,
    site: &Site<'_>,
    places: &Seq<u32>,
    start: u32,
    next: usize,
    to: usize,
    words: &mut Seq<u32>,
) -> Result<(), AllocError>
    requires within { to ≤ length (ops_there site.now) }
    requires placed { ArePlaces (pick K.vocabularies span) site.now places.now }
    requires near { size_there (pick K.vocabularies span) site.now ≤ (pick K.vocabularies span).reach }
    requires room { start + size_there (pick K.vocabularies span) site.now ≤ words_end }
    requires begins { start ≤ length words.old }
    requires ends { length words.old + layout.on_size (pick K.vocabularies span) next to
        ≤ start + size_there (pick K.vocabularies span) site.now }
    ensures { OnOk result (words.new ≡ words.old ++ layout.on_words (pick K.vocabularies span)
        (place_there (pick K.vocabularies span) site.now start) next to (length words.old)) }
{
    if next == to {
        return Ok(());
    }
    let from = words.len() as u32;
    kind.put_jump(
        span,
        from,
        word_at(kind, span, site, places, start, to),
        words,
    )
}

/// Writes a question of step q whose target is so many steps past the next one. The error is want of memory.
fn put_branch<K: Kind>(
    kind: &K,
    span: Span,
    site: &Site<'_>,
    places: &Seq<u32>,
    start: u32,
    next: usize,
    q: usize,
    question: Question,
    over: u32,
    words: &mut Seq<u32>,
) -> Result<(), AllocError>
    requires few { length (ops_there site.now) ≤ most_steps }
    requires within { q + over + 1 ≤ length (ops_there site.now) }
    requires homes { CanPutQuestion K.homes question }
    requires placed { ArePlaces (pick K.vocabularies span) site.now places.now }
    requires near { size_there (pick K.vocabularies span) site.now ≤ (pick K.vocabularies span).reach }
    requires room { start + size_there (pick K.vocabularies span) site.now ≤ words_end }
    requires begins { start ≤ length words.old }
    requires ends { length words.old + layout.branch_size (pick K.vocabularies span) next q question over
        ≤ start + size_there (pick K.vocabularies span) site.now }
    ensures { OnOk result (words.new ≡ words.old ++ layout.branch_words (pick K.vocabularies span)
        (place_there (pick K.vocabularies span) site.now start) next q question over (length words.old)) }
{
    let target = q + over as usize + 1;
    let from = words.len() as u32;
    if next == target {
        let to = word_at(kind, span, site, places, start, q + 1);
        return kind.put_ask(span, opposite(question), from, to, words);
    }
    let to = word_at(kind, span, site, places, start, target);
    kind.put_ask(span, question, from, to, words)?;
    put_on(kind, span, site, places, start, next, q + 1, words)
}

/// Writes how the code goes on behind step q, where another one stands next. The error is want of memory.
fn put_ending<K: Kind>(
    kind: &K,
    span: Span,
    site: &Site<'_>,
    places: &Seq<u32>,
    start: u32,
    next: usize,
    q: usize,
    ending: Option<Ending>,
    words: &mut Seq<u32>,
) -> Result<(), AllocError>
    requires few { length (ops_there site.now) ≤ most_steps }
    requires there { q + 1 ≤ length (ops_there site.now) }
    requires can { CanPutEnding K.homes (length (ops_there site.now)) q ending }
    requires placed { ArePlaces (pick K.vocabularies span) site.now places.now }
    requires near { size_there (pick K.vocabularies span) site.now ≤ (pick K.vocabularies span).reach }
    requires room { start + size_there (pick K.vocabularies span) site.now ≤ words_end }
    requires begins { start ≤ length words.old }
    requires ends { length words.old + layout.ending_size (pick K.vocabularies span) next q ending
        ≤ start + size_there (pick K.vocabularies span) site.now }
    ensures { OnOk result (words.new ≡ words.old ++ layout.ending_words (pick K.vocabularies span)
        (place_there (pick K.vocabularies span) site.now start) next q (length words.old) ending) }
{
    match ending {
        None => put_on(kind, span, site, places, start, next, q + 1, words),
        Some(Ending::Branch { question, over }) => put_branch(
            kind, span, site, places, start, next, q, question, over, words,
        ),
        Some(Ending::Jump { over }) => {
            let to = q + over as usize + 1;
            put_on(kind, span, site, places, start, next, to, words)
        }
        Some(Ending::Again { back }) => {
            let to = q - back as usize;
            put_on(kind, span, site, places, start, next, to, words)
        }
        Some(Ending::Stop) => put_rest(kind, span, site, places, start, next, q, words),
    }
}

/// Writes a stop at step q, and what leads on behind it. The error is want of memory.
fn put_rest<K: Kind>(
    kind: &K,
    span: Span,
    site: &Site<'_>,
    places: &Seq<u32>,
    start: u32,
    next: usize,
    q: usize,
    words: &mut Seq<u32>,
) -> Result<(), AllocError>
    requires few { length (ops_there site.now) ≤ most_steps }
    requires there { q + 1 ≤ length (ops_there site.now) }
    requires placed { ArePlaces (pick K.vocabularies span) site.now places.now }
    requires near { size_there (pick K.vocabularies span) site.now ≤ (pick K.vocabularies span).reach }
    requires room { start + size_there (pick K.vocabularies span) site.now ≤ words_end }
    requires begins { start ≤ length words.old }
    requires ends { length words.old + (1 + layout.on_size (pick K.vocabularies span) next (q + 1))
        ≤ start + size_there (pick K.vocabularies span) site.now }
    ensures { OnOk result (words.new ≡ words.old ++ (pick K.vocabularies span).stop_word ∷ layout.on_words
        (pick K.vocabularies span) (place_there (pick K.vocabularies span) site.now start) next (q + 1) (length words.old + 1)) }
{
    kind.put_stop(span, words)?;
    put_on(kind, span, site, places, start, next, q + 1, words)
}

/// Writes the words of step q of the code, where another one stands next. The error is want of memory.
fn put_op<K: Kind>(
    kind: &K,
    span: Span,
    site: &Site<'_>,
    places: &Seq<u32>,
    start: u32,
    next: usize,
    q: usize,
    op: &Op,
    words: &mut Seq<u32>,
) -> Result<(), AllocError>
    requires led { IsLed site.now }
    requires in_code { q < length site.now.code.now }
    requires there { slice_get (ops_there site.now) q ≡ Some (laid_op site.now.code.now q op.now) }
    requires makeable { IsMakeable K.homes site.now }
    requires placed { ArePlaces (pick K.vocabularies span) site.now places.now }
    requires near { size_there (pick K.vocabularies span) site.now ≤ (pick K.vocabularies span).reach }
    requires room { start + size_there (pick K.vocabularies span) site.now ≤ words_end }
    requires begins { start ≤ length words.old }
    requires ends { length words.old + layout.op_size (pick K.vocabularies span) (home_there site.now) next q
        (laid_op site.now.code.now q op.now) ≤ start + size_there (pick K.vocabularies span) site.now }
    ensures { OnOk result (words.new ≡ words.old
        ++ layout.op_words (pick K.vocabularies span) (home_there site.now) (place_there (pick K.vocabularies span) site.now start)
        next q (length words.old) (laid_op site.now.code.now q op.now)) }
{
    put_steps(kind, span, site, q, op, words)?;
    let ending = site.ending_at(q, op);
    put_ending(kind, span, site, places, start, next, q, ending, words)
}

/// Writes the words of an operation's code, which begins at word `start`. The error is want of memory.
fn put_code<K: Kind>(
    kind: &K,
    span: Span,
    site: &Site<'_>,
    places: &Seq<u32>,
    start: u32,
    words: &mut Seq<u32>,
) -> Result<(), AllocError>
    requires led { IsLed site.now }
    requires ordered { IsOrder (length site.now.code.now) site.now.order.now }
    requires makeable { IsMakeable K.homes site.now }
    requires placed { ArePlaces (pick K.vocabularies span) site.now places.now }
    requires near { size_there (pick K.vocabularies span) site.now ≤ (pick K.vocabularies span).reach }
    requires room { start + size_there (pick K.vocabularies span) site.now ≤ words_end }
    requires here { length words.old ≡ start }
    ensures { OnOk result (words.new ≡ words.old
        ++ layout.operation_words (pick K.vocabularies span) (home_there site.now) (ops_there site.now) site.now.order.now start) }
{
    for spot in 0..site.order.len() {
        let q = *site.order.at(spot);
        let next = site.next_at(spot);
        let op = &site.code.at(q).op;
        put_op(kind, span, site, places, start, next, q, op, words)?;
    }
    Ok(())
}

/// Whether a step is a stop.
fn is_stop(op: &Op) -> bool
    ensures some { result ≡ true → IsSome (stop_of op.now) }
    ensures none { result ≡ false → stop_of op.now ≡ None }
{
    match op {
        Op::Rest(_) => true,
        Op::Copy { .. }
        | Op::Literal { .. }
        | Op::Itself { .. }
        | Op::Field { .. }
        | Op::SetField { .. }
        | Op::Constant { .. }
        | Op::Compute { .. }
        | Op::Decide { .. }
        | Op::Branch { .. }
        | Op::Jump { .. }
        | Op::Again { .. } => false,
    }
}

/// The addresses of the stops of an operation, whose code begins at word `start`. The error is want of memory.
fn stops_of<K: Kind>(
    alloc: Global,
    kind: &K,
    span: Span,
    site: &Site<'_>,
    places: &Seq<u32>,
    start: u32,
) -> Result<Seq<u32>, AllocError>
    requires placed { ArePlaces (pick K.vocabularies span) site.now places.now }
    requires room { start + size_there (pick K.vocabularies span) site.now ≤ words_end }
    ensures { IfOk result (λ stops.
        stops ≡ map (λ q. pc_of (place_there (pick K.vocabularies span) site.now start q)) (stop_places site.now.code.now)) }
{
    let mut stops = Seq::new(alloc);
    for q in 0..site.code.len() {
        if is_stop(&site.code.at(q).op) {
            let word = word_at(kind, span, site, places, start, q);
            stops.push(CODE_BASE + 4 * word)?;
        }
    }
    Ok(stops)
}

/// Writes the words of an operation behind those that there are, and says where its stops are. The error is want of memory.
pub(crate) fn put_operation<K: Kind>(
    alloc: Global,
    kind: &K,
    span: Span,
    site: &Site<'_>,
    words: &mut Seq<u32>,
) -> Result<OperationCode, AllocError>
    requires led { IsLed site.now }
    requires ordered { IsOrder (length site.now.code.now) site.now.order.now }
    requires makeable { IsMakeable K.homes site.now }
    requires near { size_there (pick K.vocabularies span) site.now ≤ (pick K.vocabularies span).reach }
    requires room { length words.old + size_there (pick K.vocabularies span) site.now ≤ words_end }
    ensures words { OnOk result (words.new ≡ words.old
        ++ layout.operation_words (pick K.vocabularies span) (home_there site.now) (ops_there site.now) site.now.order.now
        (length words.old)) }
    ensures code { IfOk result (λ code. code ≡ code_there (pick K.vocabularies span) site.now (length words.old)) }
{
    let start = words.len() as u32;
    let places = places(alloc, kind, span, site)?;
    put_code(kind, span, site, &places, start, words)?;
    let stops = stops_of(alloc, kind, span, site, &places, start)?;
    Ok(OperationCode {
        words: *places.at(site.code.len()),
        stops,
    })
}
