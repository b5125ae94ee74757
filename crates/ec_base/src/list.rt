//! A small list that contracts see as a list.
ghost use Rattle.std.specs.Prelude.{◌≡◌, ◌+◌, ◌<◌, ◌≤◌, ◌↔◌, List, [], ◌∷◌, ◌++◌, length, IfOk, OnOk, OnErr, IfSome, IfNone, IsSome};
ghost use Rattle.std.specs.Prelude.{IsTrue, slice_get, slice_set};
ghost use Rattle.std.specs.Borrow.{sem};
ghost use Rattle.std.specs.List.{remove};
ghost use Rattle.ec_base.specs.Stack.{top_of, below_of};

use std::alloc::{AllocError, Global};
use std::marker::Model;

/// A list of values.
#[derive(Drop)]
pub struct Seq<T> {
    items: Vec<T>,
}

impl<T> Model for Seq<T> {
    ghost use Rattle.std.specs.Prelude.{List};
    ghost use Rattle.std.specs.Coded.{coded_list};

    ghost Value = { List T };

    ghost coded = { coded_list T.code };

    ghost view = { λ s. s.items.items };
}

impl<T> Seq<T> {
    ghost use Rattle.ec_base.specs.Lending.{LendsItem};

    /// The empty list.
    pub fn new(alloc: Global) -> Seq<T>
        ensures { result ≡ [] }
    {
        Seq {
            items: Vec::new(alloc),
        }
    }

    /// A list of these items.
    pub fn from_vec(items: Vec<T>) -> Seq<T>
        ensures { result ≡ items.items }
    {
        Seq { items }
    }

    /// The items.
    pub fn into_vec(self) -> Vec<T>
        ensures { result.items ≡ self }
    {
        self.items
    }

    /// The allocator that the list was made with.
    pub fn allocator(&self) -> Global {
        *self.items.allocator()
    }

    /// The items, as a slice.
    pub fn as_slice(&self) -> &[T]
        ensures { result.now ≡ self.now }
    {
        self.items.as_slice()
    }

    /// How many items there are.
    pub fn len(&self) -> usize
        ensures { result ≡ length self.now }
    {
        self.items.len()
    }

    /// The item at a place.
    pub fn get(&self, i: usize) -> Option<&T>
        ensures some { IfSome result (λ r. slice_get self.now i ≡ Some r.now) }
        ensures none { IfNone result (slice_get self.now i ≡ None) }
    {
        self.items.get(i)
    }

    /// The item at a place that there is.
    pub fn at(&self, i: usize) -> &T
        requires { i < length self.now }
        ensures { slice_get self.now i ≡ Some result.now }
    {
        &self.items[i]
    }

    /// The item at a place that there is, to be changed.
    pub fn at_mut(&mut self, i: usize) -> &mut T
        requires { i < length self.old }
        ensures* writes_back { sem 𝓛 (LendsItem T.row self.entry i result) }
        ensures value { slice_get self.old i ≡ Some result.now }
    {
        &mut self.items[i]
    }

    /// One more item at the end.
    pub fn push(&mut self, item: T) -> Result<(), AllocError>
    where
        T: Drop,
        ensures ok { OnOk result (self.new ≡ self.old ++ item ∷ []) }
    {
        self.items.push(item)?;
        Ok(())
    }

    /// The last item, taken off.
    pub fn pop(&mut self) -> Option<T>
        ensures top { result ≡ top_of self.old }
        ensures below { self.new ≡ below_of self.old }
    {
        self.items.pop()
    }

    /// The last item.
    pub fn last(&self) -> &T
        requires { IsSome (top_of self.now) }
        ensures { top_of self.now ≡ Some result.now }
    {
        &self.items[self.items.len() - 1]
    }

    /// All of another list at the end.
    pub fn append(&mut self, other: Seq<T>) -> Result<(), AllocError>
    where
        T: Drop,
        ensures ok { OnOk result (self.new ≡ self.old ++ other) }
    {
        let mut items = other.items;
        self.items.append(&mut items)?;
        Ok(())
    }

    /// Another item in the place of one that there is.
    pub fn set(&mut self, i: usize, item: T)
    where
        T: Drop,
        requires { i < length self.old }
        ensures { self.new ≡ slice_set self.old i item }
    {
        self.items[i] = item;
    }
    /// The item at a place that there is, taken out; those behind it come one forward.
    pub fn remove(&mut self, i: usize) -> T
        requires { i < length self.old }
        ensures there { slice_get self.old i ≡ Some result }
        ensures rest { self.new ≡ remove self.old i }
    {
        self.items.remove(i)
    }
}
