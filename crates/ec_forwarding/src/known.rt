//! The addresses that nodes have of one object. A node that isn't in the list has none.
ghost use Rattle.std.specs.Prelude.{◌≡◌, ◌==◌, ◌≤◌, ℕ, position, is_some, IsSome, IfOk, OnOk, OnErr};
ghost use Rattle.ec_forwarding.specs.Addresses.{address_in, with_address};
ghost use Rattle.ec_forwarding.specs.Following.{AreNewer, AreShortened, IsFound, Leads, own_or_made};
ghost use Rattle.ec_forwarding.specs.Traces.{newest_in};

use crate::address::{Address, Known};
use ec_world::value::NodeNo;
use std::alloc::AllocError;

/// Which of them a node's is.
fn index_of(known: &[Known], node: NodeNo) -> Option<usize>
    ensures { result ≡ position (λ n. n.at == node) known.now }
{
    known.iter().position(|own| own.at == node)
}

/// Whether a node has one.
fn is_known(known: &[Known], node: NodeNo) -> bool
    ensures { result ≡ is_some (address_in known.now node) }
{
    index_of(known, node).is_some()
}

/// The address that a node has.
pub(crate) fn address_of(known: &[Known], node: NodeNo) -> Address
    requires { IsSome (address_in known.now node) }
    ensures { address_in known.now node ≡ Some result }
{
    let i = index_of(known, node).unwrap();
    known[i].address
}

/// A node that has an address gets another.
fn renew(known: &mut [Known], node: NodeNo, address: Address)
    requires { IsSome (address_in known.old node) }
    ensures { (k : ℕ) → address_in known.new k ≡ with_address (address_in known.old) node address k }
{
    let i = index_of(known, node).unwrap();
    known[i].address = address;
}

/// A node gets an address, whether or not it had one.
fn note(known: &mut Vec<Known>, node: NodeNo, address: Address) -> Result<(), AllocError>
    ensures ok { OnOk result ((k : ℕ) → address_in known.new.items k ≡ with_address (address_in known.old.items) node address k) }
    ensures err { OnErr result (known.new.items ≡ known.old.items) }
{
    if is_known(known, node) {
        renew(known, node, address);
    } else {
        known.push(Known { at: node, address })?;
    }
    Ok(())
}

/// Two nodes get an address, of which the first had one.
pub(crate) fn note_both(
    known: &mut Vec<Known>,
    from: NodeNo,
    to: NodeNo,
    address: Address,
) -> Result<(), AllocError>
    requires { IsSome (address_in known.old.items from) }
    ensures ok { OnOk result ((k : ℕ) →
        address_in known.new.items k ≡ with_address (with_address (address_in known.old.items) to address) from address k) }
    ensures err { OnErr result (known.new.items ≡ known.old.items) }
{
    note(known, to, address)?;
    renew(known, from, address);
    Ok(())
}

/// The newest address, which is that of the node where the object is, and how many addresses one follows to this node from another, behind
/// the other's own.
pub(crate) fn follow(known: &[Known], start: NodeNo) -> (Address, u64)
    requires start { IsSome (address_in known.now start) }
    requires leads { Leads (address_in known.now) (newest_in known.now) }
    ensures newest { result.0 ≡ newest_in known.now }
    ensures found { IsFound (address_in known.now) start (newest_in known.now).node result.1 }
    ensures few { result.1 ≤ (newest_in known.now).moves }
{
    let mut address = address_of(known, start);
    let mut next = address_of(known, address.node);
    let mut hops = 0;
    while next.node != address.node {
        address = next;
        next = address_of(known, address.node);
        hops += 1;
    }
    (next, hops)
}

/// The nodes that one passes in so many hops get the newest address.
fn shorten(known: &mut [Known], start: NodeNo, hops: u64, newest: Address)
    requires start { IsSome (address_in known.old start) }
    requires leads { Leads (address_in known.old) newest }
    requires found { IsFound (address_in known.old) start newest.node hops }
    ensures { AreShortened (address_in known.old) (address_in known.new) start hops newest }
{
    let mut node = start;
    for _ in 0..hops {
        let next = address_of(known, node).node;
        renew(known, node, newest);
        node = next;
    }
    renew(known, node, newest);
}

/// The node where the object is, and how many hops it takes to find it from a node. This node and those that it passes have the newest
/// address from then on. The error is want of memory.
pub(crate) fn find(
    known: &mut Vec<Known>,
    made: NodeNo,
    from: NodeNo,
) -> Result<(NodeNo, u64), AllocError>
    requires made { IsSome (address_in known.old.items made) }
    requires leads { Leads (address_in known.old.items) (newest_in known.old.items) }
    ensures place { IfOk result (λ answer. answer.0 ≡ (newest_in known.old.items).node) }
    ensures found { let A = address_in known.old.items in
        IfOk result (λ answer. IsFound A (own_or_made (A from) from made) (newest_in known.old.items).node answer.1) }
    ensures few { IfOk result (λ answer. answer.1 ≤ (newest_in known.old.items).moves) }
    ensures newer { let A = address_in known.old.items in IfOk result (λ answer.
        AreNewer A (address_in known.new.items) from (own_or_made (A from) from made) answer.1 (newest_in known.old.items)) }
    ensures err { OnErr result (known.new.items ≡ known.old.items) }
{
    if is_known(known, from) {
        let (newest, hops) = follow(known, from);
        shorten(known, from, hops, newest);
        Ok((newest.node, hops))
    } else {
        let (newest, hops) = follow(known, made);
        known.push(Known {
            at: from,
            address: newest,
        })?;
        shorten(known, made, hops, newest);
        Ok((newest.node, hops))
    }
}
