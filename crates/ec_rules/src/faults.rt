//! The first fault of those that are met, in any order.
ghost use Rattle.std.specs.Prelude.{◌≡◌, None, true, ◌&&◌};
ghost use Rattle.ec_rules.specs.Rules as spec;

use crate::{Rule, StaticFault, number_of};
use ec_ast::Span;

/// The first of the faults that were met, and whether none was met since the beginning of the part that is looked at.
#[derive(Clone, Copy, PartialEq, Eq, Debug)]
pub struct Faults {
    pub first: Option<StaticFault>,
    pub is_clean: bool,
}

/// Whether a fault stands before another: by place, then by rule.
fn is_before(f: StaticFault, g: StaticFault) -> bool
    ensures { result ≡ spec.is_before f g }
{
    if f.at.from != g.at.from {
        return f.at.from < g.at.from;
    }
    if f.at.to != g.at.to {
        return f.at.to < g.at.to;
    }
    number_of(f.rule) < number_of(g.rule)
}

fn lesser(first: Option<StaticFault>, f: StaticFault) -> Option<StaticFault>
    ensures { result ≡ spec.lesser first f }
{
    match first {
        None => Some(f),
        Some(g) => if is_before(f, g) { Some(f) } else { Some(g) },
    }
}

impl Faults {
    /// No fault.
    pub fn new() -> Faults
        ensures { result ≡ spec.no_faults }
    {
        Faults {
            first: None,
            is_clean: true,
        }
    }

    /// A rule is broken at a place.
    pub(crate) fn note(&mut self, rule: Rule, at: Span)
        ensures { self.new ≡ spec.noted self.old (spec.fault rule at) }
    {
        self.first = lesser(self.first, StaticFault { rule, at });
        self.is_clean = false;
    }

    /// A rule is broken at a place where a test fails.
    pub fn note_unless(&mut self, holds: bool, rule: Rule, at: Span)
        ensures { self.new ≡ spec.noted self.old (spec.fault_unless holds rule at) }
    {
        if !holds {
            self.note(rule, at);
        }
    }

    /// A rule is broken at a place where a test holds.
    pub fn note_if(&mut self, breaks: bool, rule: Rule, at: Span)
        ensures { self.new ≡ spec.noted self.old (spec.fault_if breaks rule at) }
    {
        if breaks {
            self.note(rule, at);
        }
    }

    /// A part begins, within which no fault has been met yet. What is handed out says whether one was met before.
    pub fn begin(&mut self) -> bool
        ensures was { result ≡ self.old.is_clean }
        ensures begun { self.new ≡ spec.begun self.old }
    {
        let was_clean = self.is_clean;
        self.is_clean = true;
        was_clean
    }

    /// The part ends. Whether no fault was met within it.
    pub fn end(&mut self, was_clean: bool) -> bool
        ensures clean { result ≡ self.old.is_clean }
        ensures ended { self.new ≡ spec.ended self.old was_clean }
    {
        let is_clean = self.is_clean;
        self.is_clean = was_clean && is_clean;
        is_clean
    }
}
