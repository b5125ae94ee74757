//! The files of a call.

/// The files that a command may name.
#[derive(Clone, Copy, PartialEq, Eq, Debug)]
pub enum FileOf {
    Source,
    Nodes,
    Schedule,
}
