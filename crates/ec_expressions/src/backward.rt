//! Code that is made from its end to its beginning, so that how far a jump goes is known when it is made.
ghost use Rattle.std.specs.Prelude.{◌≡◌, ◌<◌, [], ◌∷◌, IfOk, MatchOption, OnOk, length};
ghost use Rattle.ec_expressions.specs.Replacing.{with_other};

use ec_base::list::Seq;
use ec_code::code::Op;
use std::alloc::{AllocError, Global};
use std::marker::Model;

/// Steps of code. Contracts see the list of them in their order; the first one is kept last.
#[derive(Drop)]
pub struct Backward {
    ops: Seq<Op>,
}

impl Model for Backward {
    ghost use Rattle.std.specs.Prelude.{List, reverse};
    ghost use Rattle.ec_code.specs.declared.code.Op.{Op};

    ghost Value = { List Op };

    ghost view = { λ code. reverse code.ops };
}

impl Backward {
    /// No steps yet.
    pub fn new(alloc: Global) -> Backward
        ensures { result ≡ [] }
    {
        Backward {
            ops: Seq::new(alloc),
        }
    }

    /// One more step, before all others. The error is want of memory.
    pub fn before(&mut self, op: Op) -> Result<(), AllocError>
        ensures { OnOk result (self.new ≡ op ∷ self.old) }
    {
        self.ops.push(op)
    }

    /// How many steps there are.
    #[tactic(auto, using(crate::proofs::Reversed::as_long))]
    pub fn len(&self) -> usize
        ensures { result ≡ length self.now }
    {
        self.ops.len()
    }

    /// The allocator that it was made with.
    pub(crate) fn allocator(&self) -> Global {
        self.ops.allocator()
    }

    /// Another step in the place of one that there is, by how many stand behind it.
    #[tactic(auto, using(crate::proofs::Reversed::as_long, crate::proofs::Reversed::twice))]
    pub fn replace(&mut self, behind: usize, op: Op)
        requires { behind < length self.old }
        ensures { self.new ≡ with_other self.old behind op }
    {
        self.ops.set(behind, op);
    }

    /// The first step, taken off.
    fn take_first(&mut self) -> Option<Op>
        ensures { MatchOption result ((self.old ≡ []) × (self.new ≡ [])) (λ op. self.old ≡ op ∷ self.new) }
    {
        self.ops.pop()
    }

    /// The steps in their order. The error is want of memory.
    pub fn into_ops(self) -> Result<Seq<Op>, AllocError>
        ensures { IfOk result (λ ops. ops ≡ self) }
    {
        let mut rest = self;
        let mut ops = Seq::new(rest.allocator());
        while let Some(op) = rest.take_first() {
            ops.push(op)?;
        }
        Ok(ops)
    }
}
