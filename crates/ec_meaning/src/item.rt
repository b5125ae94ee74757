//! What is still to do in an activation of the source.
use ec_ast::{Additive, Comparison, Multiplicative};
use ec_core::{Addend, Arm, At, Block, Expression, Factor, Link, Place, Statement};
use ec_world::stop::Stop;
use sqlite_items::Items;

/// A part of the core that is still to do, or what is to do with the values that are held.
#[derive(Drop)]
pub enum Item {
    /// A statement is done.
    Do(Statement),
    /// An expression is evaluated.
    Evaluate(Expression),
    /// A call or an index, of the value held last.
    Follow(Link),
    /// The value held last is the left operand of an operator of a product.
    Multiply(Factor),
    /// The value held last is the left operand of an operator of a sum.
    Add(Addend),
    /// Where the truth held last is true, the next one stands in its place.
    AndThen(Expression),
    /// Where the truth held last is false, the next one stands in its place.
    OrElse(Expression),
    /// The first of the arms whose condition holds, or the last block, where there is one.
    Choose(Items<Arm>, Option<Block>),
    /// The next turn of a loop.
    Again(Block),
    /// A stop, which takes so many of the values held last.
    Rest { stop: Stop, takes: u32 },
    /// A product, quotient or remainder of the two numbers held last.
    Calculate(Multiplicative, At),
    /// A sum or a difference of the two numbers held last, or the two texts behind one another.
    Join(Additive, At),
    Negate,
    Invert,
    /// A comparison of the two values held last: whether they are the same, or the order of two numbers.
    Compare(Comparison),
    /// The block where the truth held last is true, else the other arms.
    Branch(Block, Items<Arm>, Option<Block>),
    /// The innermost loop is left where the truth held last is true.
    ExitIf,
    /// The value held last is stored.
    Store(Place),
    /// The values held are dropped.
    Discard,
    /// The truth held last is to be true.
    Require(At),
    /// The operation ends.
    Leave,
}
