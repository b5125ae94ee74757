//! Objects that go from node to node, and searches for them.
use crate::forwarding::Forwarding;
use ec_world::value::{NodeNo, Oid};
use std::alloc::AllocError;
use std::test::Fail;

/// An object is made at a node, unless one of this number was noted.
fn make(forwarding: &mut Forwarding, oid: Oid, at: NodeNo) -> Result<(), AllocError> {
    if forwarding.place(oid).is_none() {
        forwarding.note_made(oid, at)?;
    }
    Ok(())
}

/// An object goes to a node from where it is.
fn go(forwarding: &mut Forwarding, oid: Oid, to: NodeNo) -> Result<(), AllocError> {
    if let Some(from) = forwarding.place(oid) {
        if let Some(moves) = forwarding.moves(oid) {
            if moves < 100 {
                forwarding.note_move(oid, from, to)?;
            }
        }
    }
    Ok(())
}

/// Where an object is found from a node, and in how many hops.
fn find(
    forwarding: &mut Forwarding,
    from: NodeNo,
    oid: Oid,
) -> Result<Option<(NodeNo, u64)>, AllocError> {
    if forwarding.place(oid).is_none() {
        return Ok(None);
    }
    Ok(Some(forwarding.find(from, oid)?))
}

/// Where an object that was made at node 0 goes, and searches for it, one behind another: from which node, where it is, and in how
/// many hops it is found.
const CASES: [(&[NodeNo], &[(NodeNo, NodeNo, u64)]); 7] = [
    // the addresses of the nodes where it was are followed once
    (&[1, 2, 3], &[(0, 3, 2), (0, 3, 0), (1, 3, 0)]),
    // a node without an address begins where the object was made
    (&[1, 2, 3], &[(7, 3, 2), (7, 3, 0), (0, 3, 0), (2, 3, 0)]),
    (&[], &[(0, 0, 0), (5, 0, 0)]),
    // it comes back: the later address counts
    (&[1, 0, 2], &[(1, 2, 1), (1, 2, 0), (0, 2, 0)]),
    // an old address may name the place
    (&[1, 2, 1], &[(0, 1, 0), (2, 1, 0)]),
    // it goes where it is
    (&[0, 4, 4], &[(0, 4, 0), (4, 4, 0)]),
    // it goes on between two searches from elsewhere
    (&[1, 2, 3, 4, 5], &[(3, 5, 1), (0, 5, 3), (2, 5, 0)]),
];

#[test]
fn objects_are_found_where_they_went(rt: HostRuntime) -> Result<(), Fail> {
    for (moves, searches) in &CASES {
        let mut forwarding = Forwarding::new(rt.alloc());
        make(&mut forwarding, 1, 0)?;
        for to in *moves {
            go(&mut forwarding, 1, *to)?;
        }
        for (from, place, hops) in *searches {
            assert_eq!(rt; find(&mut forwarding, *from, 1)?, Some((*place, *hops)));
        }
    }
    Ok(())
}

/// Objects in the order in which they are noted: the number, the node where it is made, and the node to which it goes.
const OBJECTS: [(Oid, NodeNo, NodeNo); 4] = [
    (9, 0, 5),
    (2, 1, 1),
    (4_294_967_295, 2, 0),
    (0, 3, 4),
];

#[test]
fn objects_of_any_numbers_are_found(rt: HostRuntime) -> Result<(), Fail> {
    let mut forwarding = Forwarding::new(rt.alloc());
    for (oid, at, to) in &OBJECTS {
        make(&mut forwarding, *oid, *at)?;
        go(&mut forwarding, *oid, *to)?;
    }
    for (oid, at, to) in &OBJECTS {
        assert_eq!(rt; find(&mut forwarding, *at, *oid)?, Some((*to, 0)));
        assert_eq!(rt; find(&mut forwarding, 7, *oid)?, Some((*to, 0)));
    }
    assert_eq!(rt; forwarding.place(3), None);
    Ok(())
}
