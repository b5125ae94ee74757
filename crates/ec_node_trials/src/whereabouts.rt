//! An object that goes from node to node.
use ec_cluster::forward::whereabouts::Whereabouts;
use ec_world::value::{NodeNo, Oid};
use std::alloc::AllocError;
use std::test::Fail;

/// An object goes to a node from where it is.
fn go(whereabouts: &mut Whereabouts, oid: Oid, to: NodeNo) -> Result<(), AllocError> {
    if let Some(from) = whereabouts.place(oid) {
        if whereabouts.can_move(oid) {
            whereabouts.note_move(oid, from, to)?;
        }
    }
    Ok(())
}

/// What is found from a node.
fn find(
    whereabouts: &mut Whereabouts,
    from: NodeNo,
    oid: Oid,
) -> Result<Option<(NodeNo, u64)>, AllocError> {
    if whereabouts.place(oid).is_none() {
        return Ok(None);
    }
    Ok(Some(whereabouts.find(from, oid)?))
}

#[test]
fn an_object_is_found_where_it_went(rt: HostRuntime) -> Result<(), Fail> {
    let mut whereabouts = Whereabouts::new(rt.alloc());
    whereabouts.note_made(1, 0)?;
    assert_eq!(rt; find(&mut whereabouts, 2, 1)?, Some((0, 0)));
    go(&mut whereabouts, 1, 1)?;
    go(&mut whereabouts, 1, 2)?;
    go(&mut whereabouts, 1, 3)?;
    assert_eq!(rt; whereabouts.place(1), Some(3));
    assert_eq!(rt; find(&mut whereabouts, 0, 1)?, Some((3, 2)));
    assert_eq!(rt; find(&mut whereabouts, 0, 1)?, Some((3, 0)));
    assert_eq!(rt; find(&mut whereabouts, 1, 1)?, Some((3, 0)));
    assert_eq!(rt; whereabouts.place(1), Some(3));
    assert_eq!(rt; find(&mut whereabouts, 3, 2)?, None);
    assert!(rt; whereabouts.place(0).is_none());
    assert!(rt; whereabouts.place(2).is_none());
    assert!(rt; whereabouts.each_can_move());
    Ok(())
}
