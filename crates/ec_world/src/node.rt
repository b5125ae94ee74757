//! What is said of a node before a run.
use crate::value::Text;

/// The kind of a node's machine: RISC-V, which is little-endian, or MIPS, which is big-endian.
#[derive(Clone, Copy, PartialEq, Eq, Debug)]
pub enum Kind {
    Riscv,
    Mips,
}

/// A node: its name, its kind, how many blocks it has (at most 65,536), and its room for text in bytes (at most
/// 16,777,216).
#[derive(Drop)]
pub struct NodeSpec {
    pub name: Text,
    pub kind: Kind,
    pub blocks: u32,
    pub text: u32,
}
