//! The code of a program for one kind of machine.
use ec_base::list::Seq;

/// The code of one operation: how many words it has, and the address of each of its stops. The stops of an operation are counted
/// from 0 in the order of its three-address code, so the entry is stop 0.
#[derive(Drop)]
pub struct OperationCode {
    pub words: u32,
    pub stops: Seq<u32>,
}

/// The code of a program: its words from address 0x00400000 on, four bytes each, and what is said of each operation. The operations
/// lie one behind another.
#[derive(Drop)]
pub struct Code {
    pub words: Seq<u32>,
    pub operations: Seq<OperationCode>,
}
