//! What is kept along a walk over the tree.
ghost use Rattle.std.specs.Prelude.{◌≡◌};
ghost use Rattle.ec_judge.specs.Walks as spec;
ghost use Rattle.ec_rules.specs.Calls as calls;

use ec_ast::Span;
use ec_rules::captures::Uses;
use ec_rules::faults::Faults;
use ec_rules::judged::Judged;
use ec_types::conform::static_type::StaticType;
use ec_types::scopes::Scope;

/// A walk: what is in scope, what faults were met, and which names were used, in their order.
#[derive(Drop)]
pub struct Walk<'a> {
    pub scope: Scope,
    pub faults: Faults,
    pub uses: Uses<'a>,
}

/// What an expression is, where no fault is within it.
#[derive(Clone, Copy, PartialEq, Eq, Debug)]
pub struct Looked {
    /// Its first token.
    pub at: Span,
    pub of: Option<StaticType>,
    pub height: usize,
    pub nodes: usize,
}

/// A type, where no fault is within what is of it.
pub fn type_unless(is_clean: bool, of: Option<StaticType>) -> Option<StaticType>
    ensures { result ≡ calls.type_unless is_clean of }
{
    if is_clean { of } else { None }
}

impl Looked {
    /// What the expression is, within which there is no fault, or one.
    pub fn judged(self, is_clean: bool) -> Judged
        ensures { result ≡ spec.judged_as self is_clean }
    {
        Judged {
            at: self.at,
            of: type_unless(is_clean, self.of),
            is_clean,
            height: self.height,
            nodes: self.nodes,
        }
    }
}
