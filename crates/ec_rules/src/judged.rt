//! What the checker finds of a part of a program.

use ec_ast::{Additive, Span};
use ec_types::conform::static_type::StaticType;

/// What an expression is found to be.
#[derive(Clone, Copy, PartialEq, Eq, Debug)]
pub struct Judged {
    /// Its first token.
    pub at: Span,
    /// Its type. None where a fault is within it, where it is of an unknown type, or names a const that lacks its type.
    pub of: Option<StaticType>,
    /// No fault is within it.
    pub is_clean: bool,
    /// Its value height: how many values it holds at one time.
    pub height: usize,
    /// How many tree nodes it has.
    pub nodes: usize,
}

/// An operator of a sum, with what stands behind it.
#[derive(Clone, Copy, PartialEq, Eq, Debug)]
pub struct Added {
    pub operator: Additive,
    pub value: Judged,
}

/// What a statement, or several, are found to be.
#[derive(Clone, Copy, PartialEq, Eq, Debug)]
pub struct Done {
    /// The greatest value height.
    pub height: usize,
    /// How many tree nodes.
    pub nodes: usize,
    /// How many locals are declared.
    pub variables: usize,
}
