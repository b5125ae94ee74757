//! What code is part of.
use ec_meaning::source::Program;
use ec_types::conform::static_type::StaticType;
use ec_world::class::ClassNo;

/// A program, the class whose objects an operation is of, and the types of the operation's named variables.
#[derive(Drop)]
pub(crate) struct Site<'a> {
    pub(crate) program: &'a Program<'a>,
    pub(crate) class: ClassNo,
    pub(crate) variables: &'a [StaticType],
}
