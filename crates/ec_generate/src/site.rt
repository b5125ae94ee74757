//! An operation that is laid out.
ghost use Rattle.std.specs.Prelude.{◌≡◌, ◌≤◌, ◌<◌, ◌+◌, ◌^◌, IfNone, IfSome, drop, length};
ghost use Rattle.ec_generate.specs.Sites.{home_there};
ghost use Rattle.ec_machine_code.specs.Homes as homes;
ghost use Rattle.ec_machine_code.specs.Layout.{first_of};

use ec_base::list::Seq;
use ec_code::code::{Line, Variable};
use ec_machine_code::homes::Home;

/// The code of an operation, for each place of it whether a step leads there past the next one, how many named variables it has, the homes
/// of its variables by their places, named ones first, and the order in which its steps stand.
#[derive(Clone, Copy)]
pub(crate) struct Site<'a> {
    pub(crate) code: &'a Seq<Line>,
    pub(crate) led: &'a [bool],
    pub(crate) named: usize,
    pub(crate) homes: &'a Seq<Home>,
    pub(crate) order: &'a Seq<usize>,
}

/// The place of a variable among all, where there are so many named ones. One beyond 64 bits is no place.
fn column(named: usize, x: Variable) -> Option<usize>
    ensures some { IfSome result (λ c. c ≡ homes.column named x) }
    ensures none { IfNone result (2 ^ 64 ≤ homes.column named x) }
{
    match x {
        Variable::Named(n) => Some(n as usize),
        Variable::Temporary(d) => named.checked_add(d as usize),
    }
}

impl<'a> Site<'a> {
    /// The home of a variable. One that has none is in the first slot.
    pub(crate) fn home(&self, x: Variable) -> Home
        ensures { result ≡ home_there self.now x }
    {
        let count = self.homes.len();
        match column(self.named, x) {
            Some(c) if c < count => *self.homes.at(c),
            _ => Home::Slot(0),
        }
    }

    /// The step that stands next behind a spot of the order; behind the last one more than there are.
    #[tactic(auto, using(crate::proofs::Orders::first_at, crate::proofs::Orders::first_past))]
    pub(crate) fn next_at(&self, spot: usize) -> usize
        requires { spot < length self.now.order.now }
        ensures { result ≡ first_of (length self.now.code.now) (drop (spot + 1) self.now.order.now) }
    {
        let count = self.order.len();
        if spot + 1 < count {
            *self.order.at(spot + 1)
        } else {
            self.code.len()
        }
    }
}
