//! The addresses of stops, and the stop at each.
ghost use Rattle.std.specs.Prelude.{◌≡◌, ◌≢◌, ◌≤◌, ◌^◌, ℕ, [], length, map, IfNone, IfOk, IfSome, IsSome, OnOk, Some, slice_get};
ghost use Rattle.ec_generate.specs.Addresses.{AreApart, HasFew, Notes, address_in};

use crate::table::StopId;
use ec_base::list::Seq;
use ec_machine_code::code::Code;
use std::alloc::{AllocError, Global};
use std::collections::BTreeMap;
use std::marker::Model;

/// For each operation the addresses of its stops, by their numbers.
#[derive(Drop)]
pub struct Addresses {
    // by operation, then by the stop's number
    of: Seq<Seq<u32>>,
    // the stop at each address
    at: BTreeMap<u32, StopId>,
}

impl Model for Addresses {
    ghost use Rattle.std.specs.Prelude.{List, ℕ};
    ghost use Rattle.ec_generate.specs.Addresses.{AreFound};

    ghost Value = { List (List ℕ) };

    ghost view = { λ a. a.of };

    ghost invariant = { λ a. AreFound a.at a.of };
}

impl Addresses {
    /// No addresses.
    pub fn none(alloc: Global) -> Addresses
        ensures { result ≡ [] }
    {
        Addresses {
            of: Seq::new(alloc),
            at: BTreeMap::new(alloc),
        }
    }

    /// Those of code in which no two stops have one address. The error is want of memory.
    pub fn of_code(alloc: Global, code: &Code) -> Result<Addresses, AllocError>
        requires apart { AreApart code.now }
        requires few { HasFew code.now }
        ensures { IfOk result (λ addresses. addresses ≡ map (λ o. o.stops) code.now.operations) }
    {
        let mut of = Seq::new(alloc);
        let mut at = BTreeMap::new(alloc);
        for op in 0..code.operations.len() {
            let stops = &code.operations.at(op).stops;
            note(&mut at, op as u32, stops)?;
            of.push(copied(alloc, stops)?)?;
        }
        Ok(Addresses { of, at })
    }

    /// The stop at an address; none where no stop has it.
    pub fn at(&self, pc: u32) -> Option<StopId>
        ensures some { IfSome result (λ id. address_in self.now id.operation id.stop ≡ Some pc) }
        ensures none { IfNone result ((op n : ℕ) → address_in self.now op n ≢ Some pc) }
    {
        self.at.get(&pc).copied()
    }

    /// The address of a stop that is there.
    pub fn of(&self, id: StopId) -> u32
        requires { IsSome (address_in self.now id.operation id.stop) }
        ensures { address_in self.now id.operation id.stop ≡ Some result }
    {
        *self.of.at(id.operation as usize).at(id.stop as usize)
    }
}

/// The same addresses again. The error is want of memory.
fn copied(alloc: Global, stops: &Seq<u32>) -> Result<Seq<u32>, AllocError>
    ensures { IfOk result (λ copy. copy ≡ stops.now) }
{
    Ok(Seq::from_vec(Vec::from_slice(alloc, stops.as_slice())?))
}

/// Notes the stops of an operation at their addresses, no two of which are alike. The error is want of memory.
fn note(at: &mut BTreeMap<u32, StopId>, operation: u32, stops: &Seq<u32>) -> Result<(), AllocError>
    requires few { length stops.now ≤ 2 ^ 32 }
    requires apart { (n m a : ℕ) → slice_get stops.now n ≡ Some a → slice_get stops.now m ≡ Some a → n ≡ m }
    ensures { OnOk result (Notes at.old at.new operation stops.now) }
{
    for n in 0..stops.len() {
        let id = StopId {
            operation,
            stop: n as u32,
        };
        at.insert(*stops.at(n), id)?;
    }
    Ok(())
}
