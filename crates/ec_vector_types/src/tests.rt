//! Texts with the vector types that are written in them.
use crate::written::written_vectors;
use ec_base::list::Seq;
use ec_lexer::lex;
use ec_parser::parse;
use ec_types::conform::TypeTable;
use ec_world::class::{PlainType, VectorType};
use std::alloc::Global;
use std::test::Fail;

/// The vector types that are written in a text, which none are where it is no program's.
fn written_in(alloc: Global, text: &[u8]) -> Option<Seq<VectorType>> {
    let tokens = lex(alloc, text).ok()?;
    let program = parse(alloc, tokens.as_slice()).ok()?;
    let table = TypeTable::build(alloc, &program).ok()?;
    written_vectors(alloc, &table, tokens.as_slice()).ok()
}

/// Whether these are the types with so many more `vector.of[..]` around such a type.
fn are(found: &[VectorType], wanted: &[(u32, PlainType)]) -> bool {
    found.len() == wanted.len()
        && found
            .iter()
            .zip(wanted.iter())
            .all(|(a, b)| a.inner == b.0 && a.of == b.1)
}

/// Texts, each with its vector types.
const CASES: [(&[u8], &[(u32, PlainType)]); 5] = [
    (b"const n <- 1", &[]),
    // a type that is mentioned first, and of which the code makes vectors last
    (
        b"const a : vector.of[string] <- nil const b <- vector.of[integer].create[2]
          const c <- vector.of[string].create[1]",
        &[
            (0, PlainType::Bytes),
            (0, PlainType::Integer),
            (0, PlainType::Bytes),
        ],
    ),
    // the outer one is written before the inner one
    (
        b"const a : vector.of[vector.of[vector.of[any]]] <- nil",
        &[
            (2, PlainType::Any),
            (1, PlainType::Any),
            (0, PlainType::Any),
        ],
    ),
    // types have their numbers in the order of the text, and a name may stand before its type; each is told as often as it is written
    (
        b"const t <- typeobject t operation put[vector.of[C]] -> [vector.of[t]] end t
          const C <- class C[v : VECTOR.OF[node]]
            var w : vector.of[c] <- nil
            operation get -> [r : vector.of[boolean]] r <- view v as vector.of[boolean] end get
          end C",
        &[
            (0, PlainType::Named(1)),
            (0, PlainType::Named(0)),
            (0, PlainType::Node),
            (0, PlainType::Named(1)),
            (0, PlainType::Boolean),
            (0, PlainType::Boolean),
        ],
    ),
    // a name may be a word that the language uses elsewhere
    (
        b"const count <- object count end count const v : vector.of[count] <- nil",
        &[(0, PlainType::Named(0))],
    ),
];

#[test]
fn vector_types_are_found_in_the_order_of_the_text(rt: HostRuntime) -> Result<(), Fail> {
    for (text, wanted) in &CASES {
        match written_in(rt.alloc(), text) {
            Some(found) => assert!(rt; are(found.as_slice(), wanted)),
            None => assert!(rt; false),
        }
    }
    Ok(())
}
