//! The stop table of a program.
ghost use Rattle.std.specs.Prelude.{◌≡◌, ◌≢◌, ◌<◌, ◌≤◌, ◌^◌, ℕ, true, false, IfNone, IfSome, IsSome, OnOk, Some, None, length, slice_get};
ghost use Rattle.ec_machine_code.specs.Stops.{address_of};
ghost use Rattle.ec_generate.specs.Addresses.{AreApart, HasFew, address_in};
ghost use Rattle.ec_machine_code.specs.Homes as homes;
ghost use Rattle.ec_generate.specs.Entries as entries;
ghost use Rattle.ec_generate.specs.Tables.{home_at, home_in, is_live_at, stops_at};

use crate::addresses::Addresses;
use ec_base::list::Seq;
use ec_code::code::{Live, Variable};
use ec_code::steps::is_same;
use ec_machine_code::code::Code;
use ec_machine_code::homes::Home;
use ec_world::value::OpNo;
use std::alloc::AllocError;

/// A stop of a program: its operation, and its number there, from 0 in the order of the code.
#[derive(Clone, Copy, PartialEq, Eq, Debug)]
pub struct StopId {
    pub operation: OpNo,
    pub stop: u32,
}

/// A stop of an operation: its place in the three-address code; the variables that have its operands, in their order; the one that
/// takes what it gives, where it gives something; and those that are live behind it besides, named ones first. At a return the
/// result is its operand. Each is there with its static type.
#[derive(Drop)]
pub struct StopEntry {
    pub place: u32,
    pub operands: Seq<Live>,
    pub result: Option<Live>,
    pub live: Seq<Live>,
}

/// The table of one operation: how many named variables it has, the homes of its variables by their columns, named ones first and
/// then temporaries, and its stops.
#[derive(Drop)]
pub struct OperationTable {
    pub named: u32,
    pub homes: Seq<Home>,
    pub stops: Seq<StopEntry>,
}

/// The stop table of a program: a table for each operation, and the addresses of the stops in code, once it is bound to some.
#[derive(Drop)]
pub struct StopTable {
    pub operations: Seq<OperationTable>,
    pub addresses: Addresses,
}

impl OperationTable {
    /// The home of a variable; the first slot where it has none.
    pub fn home(&self, x: Variable) -> Home
        ensures { result ≡ home_in self.now x }
    {
        let count = self.homes.len();
        match column(self.named, x) {
            Some(c) if c < count => *self.homes.at(c),
            _ => Home::Slot(0),
        }
    }
}

/// The place of a variable among all, where there are so many named ones. One beyond 64 bits is no place.
fn column(named: u32, x: Variable) -> Option<usize>
    ensures some { IfSome result (λ c. c ≡ homes.column named x) }
    ensures none { IfNone result (2 ^ 64 ≤ homes.column named x) }
{
    match x {
        Variable::Named(n) => Some(n as usize),
        Variable::Temporary(d) => (named as usize).checked_add(d as usize),
    }
}

/// Whether a variable is one of these.
fn is_in(live: &Seq<Live>, x: Variable) -> bool
    ensures { result ≡ entries.is_in live.now x }
{
    for l in live.as_slice() {
        if is_same(l.variable, x) {
            return true;
        }
    }
    false
}

impl StopEntry {
    /// Whether a variable has an operand, takes what the stop gives, or is live behind it.
    pub fn has(&self, x: Variable) -> bool
        ensures { result ≡ entries.is_live self.now x }
    {
        if is_in(&self.operands, x) {
            return true;
        }
        if let Some(l) = self.result {
            if is_same(l.variable, x) {
                return true;
            }
        }
        is_in(&self.live, x)
    }
}

impl StopTable {
    /// The addresses of the stops are those of this code, no two of which are alike. The error is want of memory, and nothing is
    /// said of the table then.
    pub fn bind(&mut self, code: &Code) -> Result<(), AllocError>
        requires apart { AreApart code.now }
        requires few { HasFew code.now }
        ensures operations { OnOk result (self.new.operations ≡ self.old.operations) }
        ensures addresses { OnOk result ((op n : ℕ) → address_in self.new.addresses op n ≡ address_of code.now op n) }
    {
        self.addresses = Addresses::of_code(self.operations.allocator(), code)?;
        Ok(())
    }

    /// The stop at an address; none where no stop has it.
    pub fn at_pc(&self, pc: u32) -> Option<StopId>
        ensures some { IfSome result (λ id. address_in self.now.addresses id.operation id.stop ≡ Some pc) }
        ensures none { IfNone result ((op n : ℕ) → address_in self.now.addresses op n ≢ Some pc) }
    {
        self.addresses.at(pc)
    }

    /// The address of a stop that is there.
    pub fn pc_of(&self, id: StopId) -> u32
        requires { IsSome (address_in self.now.addresses id.operation id.stop) }
        ensures { address_in self.now.addresses id.operation id.stop ≡ Some result }
    {
        self.addresses.of(id)
    }

    /// The home of a variable of an operation that is there, wherever the code is; the first slot where the variable has none.
    pub fn home_of(&self, op: OpNo, x: Variable) -> Home
        requires { op < length self.now.operations }
        ensures { result ≡ home_at self.now op x }
    {
        self.operations.at(op as usize).home(x)
    }

    /// The home of a variable at a stop that is there: of one that has an operand, takes what the stop gives, or is live behind it;
    /// none of another one.
    pub fn place_of(&self, id: StopId, x: Variable) -> Option<Home>
        requires { IsSome (slice_get (stops_at self.now id.operation) id.stop) }
        ensures some { is_live_at self.now id x ≡ true → result ≡ Some (home_at self.now id.operation x) }
        ensures none { is_live_at self.now id x ≡ false → result ≡ None }
    {
        let operation = self.operations.at(id.operation as usize);
        if operation.stops.at(id.stop as usize).has(x) {
            return Some(operation.home(x));
        }
        None
    }
}
