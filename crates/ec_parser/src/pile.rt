//! A stack that contracts see as a list, its top first.

ghost use Rattle.std.specs.Prelude.{◌≡◌, [], ◌∷◌, ◌++◌, length, reverse, MatchOption, OnOk, OnErr};
ghost use Rattle.ec_parser.specs.Filled.{IsFilled, rest, top_or};

use std::alloc::{AllocError, Global};
use std::marker::Model;

/// A stack of values.
#[derive(Drop)]
pub(crate) struct Pile<T> {
    items: Vec<T>,
}

impl<T> Model for Pile<T> {
    ghost use Rattle.std.specs.Prelude.{List, reverse};
    ghost use Rattle.std.specs.Coded.{coded_list};

    ghost Value = { List T };

    ghost coded = { coded_list T.code };

    ghost view = { λ p. reverse p.items.items };
}

impl<T> Pile<T> {
    /// The empty stack.
    pub(crate) fn new(alloc: Global) -> Pile<T>
        ensures { result ≡ [] }
    {
        Pile {
            items: Vec::new(alloc),
        }
    }

    /// The values, the top last.
    pub(crate) fn as_slice(&self) -> &[T]
        ensures { reverse result.now ≡ self.now }
    {
        self.items.as_slice()
    }

    /// The top, taken off, where there is one.
    pub(crate) fn pop(&mut self) -> Option<T>
        ensures { MatchOption result ((self.old ≡ []) × (self.new ≡ [])) (λ x. self.old ≡ x ∷ self.new) }
    {
        self.items.pop()
    }

    /// The top, taken off a stack that has one.
    #[tactic(auto, unfolding(crate::specs::Filled::top_or, crate::specs::Filled::rest))]
    pub(crate) fn take(&mut self) -> T
        requires { IsFilled self.old }
        ensures first { (other : T) → result ≡ top_or other self.old }
        ensures rest { self.new ≡ rest self.old }
    {
        self.pop().unwrap()
    }
}

impl<T: Drop> Pile<T> {
    /// One more value, on the top.
    pub(crate) fn push(&mut self, x: T) -> Result<(), AllocError>
        ensures ok { OnOk result (self.new ≡ x ∷ self.old) }
        ensures err { OnErr result (self.new ≡ self.old) }
    {
        self.items.push(x)?;
        Ok(())
    }
}

impl<T: Copy> Pile<T> {
    /// More values, the first of them on the top.
    pub(crate) fn push_all(&mut self, items: &[T]) -> Result<(), AllocError>
        ensures { OnOk result (self.new ≡ items.now ++ self.old) }
    {
        let mut left = items.len();
        while left > 0 {
            left -= 1;
            self.push(items[left])?;
        }
        Ok(())
    }
}
