//! What is still to do.
ghost use Rattle.std.specs.Prelude.{◌≡◌, [], ◌∷◌, IfOk, OnOk, MatchOption, reverse};
ghost use Rattle.ec_meaning.specs.Meaning.{behind_loop};
ghost use Rattle.ec_meaning.specs.declared.item.Item.{Item};

use crate::item::Item;
use crate::state::Outcome;
use ec_base::list::Seq;
use ec_world::stop::Stop;
use std::alloc::AllocError;
use std::marker::Model;

/// Items that are still to do. Contracts see the list of them, the next one first; the next one is kept last.
#[derive(Drop)]
pub struct Todo {
    items: Seq<Item>,
}

impl Model for Todo {
    ghost use Rattle.std.specs.Prelude.{List, reverse};
    ghost use Rattle.ec_meaning.specs.declared.item.Item.{Item};
    ghost use Rattle.std.specs.Coded.{codes};
    ghost use Rattle.ec_core.specs.contracts.Addend as addend;
    ghost use Rattle.ec_core.specs.contracts.Arm as arm;
    ghost use Rattle.ec_core.specs.contracts.Block as block;
    ghost use Rattle.ec_core.specs.contracts.Expression as expression;
    ghost use Rattle.ec_core.specs.contracts.Factor as factor;
    ghost use Rattle.ec_core.specs.contracts.Link as link;
    ghost use Rattle.ec_core.specs.contracts.Statement as statement;

    ghost Value = { List Item };

    ghost coded = { Prim.hlevel (
      codes,
      addend.the_row.coded,
      arm.the_row.coded,
      block.the_row.coded,
      expression.the_row.coded,
      factor.the_row.coded,
      link.the_row.coded,
      statement.the_row.coded,
    ) };

    ghost view = { λ t. reverse t.items };
}

impl Todo {
    /// These items, the next one last.
    pub(crate) fn from_items(items: Seq<Item>) -> Todo
        ensures { result ≡ reverse items }
    {
        Todo { items }
    }

    /// The items, the next one last.
    pub(crate) fn into_items(self) -> Seq<Item>
        ensures { result ≡ reverse self }
    {
        self.items
    }

    /// One more item, to be done before the others.
    pub(crate) fn push(&mut self, item: Item) -> Result<(), AllocError>
        ensures { OnOk result (self.new ≡ item ∷ self.old) }
    {
        self.items.push(item)
    }

    /// The activation goes on with one more item. The error is want of memory.
    pub(crate) fn then(&mut self, item: Item) -> Result<Outcome, AllocError>
        ensures goes { IfOk result (λ o. o ≡ Outcome.Goes) }
        ensures next { OnOk result (self.new ≡ item ∷ self.old) }
    {
        self.push(item)?;
        Ok(Outcome::Goes)
    }

    /// The activation goes on with two more items. The error is want of memory.
    pub(crate) fn then_two(&mut self, first: Item, second: Item) -> Result<Outcome, AllocError>
        ensures goes { IfOk result (λ o. o ≡ Outcome.Goes) }
        ensures next { OnOk result (self.new ≡ first ∷ second ∷ self.old) }
    {
        self.push(second)?;
        self.then(first)
    }

    /// The activation goes on with a stop that takes so many operands. The error is want of memory.
    pub(crate) fn then_rest(&mut self, stop: Stop, takes: u32) -> Result<Outcome, AllocError>
        ensures goes { IfOk result (λ o. o ≡ Outcome.Goes) }
        ensures next { OnOk result (self.new ≡ Item.Rest stop takes ∷ self.old) }
    {
        self.then(Item::Rest { stop, takes })
    }

    /// The next item.
    pub(crate) fn pop(&mut self) -> Option<Item>
        ensures { MatchOption result ((self.old ≡ []) × (self.new ≡ [])) (λ next. self.old ≡ next ∷ self.new) }
    {
        self.items.pop()
    }

    /// Nothing but the end of the operation.
    pub(crate) fn keep_end(&mut self) -> Result<(), AllocError>
        ensures { OnOk result (self.new ≡ Item.Leave ∷ []) }
    {
        self.items = Seq::new(self.items.allocator());
        self.items.push(Item::Leave)
    }

    /// What is behind the innermost loop.
    pub(crate) fn leave_loop(&mut self)
        ensures { self.new ≡ behind_loop self.old }
    {
        while let Some(item) = self.pop() {
            if let Item::Again(_) = item {
                return;
            }
        }
    }
}
