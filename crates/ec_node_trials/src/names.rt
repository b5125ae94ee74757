//! A name that is there twice, before and after the names are cut.
use ec_types::names::Names;
use std::test::Fail;

/// Of three names, how many are left, and then for each name asked the number that it means.
const CASES: &[(usize, &[(&[u8], Option<usize>)])] = &[
    (
        4,
        &[
            (b"Out", Some(0)),
            (b"out", Some(0)),
            (b"IN", Some(1)),
            (b"ou", None),
        ],
    ),
    (2, &[(b"out", Some(0)), (b"in", Some(1))]),
    (1, &[(b"OUT", Some(0)), (b"in", None)]),
    (0, &[(b"out", None)]),
];

#[test]
fn the_first_of_doubled_names_stays(rt: HostRuntime) -> Result<(), Fail> {
    let mut names = Names::new(rt.alloc());
    for name in [b"out" as &[u8], b"In", b"OUT"] {
        names.push(name)?;
    }
    for (count, asked) in CASES {
        names.truncate(*count);
        for (name, expected) in *asked {
            assert_eq!(rt;
                (*count, *name, names.first(name)?),
                (*count, *name, *expected)
            );
            assert_eq!(rt; names.has(name)?, expected.is_some());
        }
    }
    Ok(())
}
