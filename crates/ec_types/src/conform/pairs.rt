//! Which named types conform to which: a table of all pairs, from which those that do not meet the clauses are struck.
ghost use Rattle.std.specs.Prelude.{◌≡◌, ◌<◌, ◌≤◌, ◌+◌, ◌*◌, IfOk, OnOk, true, false, length};
ghost use Rattle.std.specs.Option.{option_copied};
ghost use Rattle.ec_types.specs.Conforms as spec;
ghost use Rattle.ec_types.specs.Pairs as table;

use crate::conform::named_type::NamedType;
use crate::conform::numbered::NumberedTypes;
use crate::conform::operations::NamedOperation;
use crate::conform::static_type::{Plain, StaticType, is_reference, is_same};
use std::alloc::{AllocError, Global};

/// So many types a program may have. Those behind them are compared with nothing: such a program is refused.
pub const MOST_TYPES: usize = 1_000;

/// So many types at a time are compared with each of the others, so that what is read of them stays near.
const BLOCK: usize = 32;

/// The table of all pairs that conform, row by row. The error is want of memory.
pub fn largest(alloc: Global, types: &NumberedTypes) -> Result<Vec<bool>, AllocError>
    ensures { IfOk result (λ pairs. table.IsLargest types.now pairs.items) }
{
    let m = compared(types.len());
    let users = users_of(alloc, types.as_slice(), m)?;
    let mut pairs = vec![in alloc; true; m * m]?;
    'striking: loop {
        if !strike(alloc, types, users.as_slice(), &mut pairs)? {
            return Ok(pairs);
        }
    }
}

/// How many of n types are compared with one another: the first ones.
fn compared(n: usize) -> usize
    ensures { result ≡ table.compared n }
{
    n.min(MOST_TYPES)
}

/// Strikes out each pair that does not meet the clauses, and what follows, and says whether there was one.
fn strike(
    alloc: Global,
    types: &NumberedTypes,
    users: &[Vec<usize>],
    pairs: &mut Vec<bool>,
) -> Result<bool, AllocError>
    requires full { table.IsFull types.now pairs.old.items }
    ensures { IfOk result (λ struck. table.Struck types.now pairs.old.items struck pairs.new.items) }
{
    let mut struck = false;
    for block in 0..compared(types.len()) / BLOCK + 1 {
        if strike_block(alloc, types, users, pairs, block * BLOCK)? {
            struck = true;
        }
    }
    Ok(struck)
}

/// The same of the pairs whose second type is one of a block.
fn strike_block(
    alloc: Global,
    types: &NumberedTypes,
    users: &[Vec<usize>],
    pairs: &mut Vec<bool>,
    from: usize,
) -> Result<bool, AllocError>
    requires full { table.IsFull types.now pairs.old.items }
    requires near { from ≤ table.rows types.now }
    ensures { IfOk result
        (λ struck. table.Passed types.now pairs.old.items 0 (table.rows types.now) from (from + BLOCK) struck pairs.new.items) }
{
    let mut struck = false;
    for s in 0..compared(types.len()) {
        if strike_row(alloc, types, users, pairs, s, from)? {
            struck = true;
        }
    }
    Ok(struck)
}

/// The same of the pairs of a type and of one of a block.
fn strike_row(
    alloc: Global,
    types: &NumberedTypes,
    users: &[Vec<usize>],
    pairs: &mut Vec<bool>,
    s: usize,
    from: usize,
) -> Result<bool, AllocError>
    requires full { table.IsFull types.now pairs.old.items }
    requires s_in { s < table.rows types.now }
    requires near { from ≤ table.rows types.now }
    ensures { IfOk result (λ struck. table.Passed types.now pairs.old.items s (s + 1) from (from + BLOCK) struck pairs.new.items) }
{
    let m = compared(types.len());
    let mut struck = false;
    for t in from..m.min(from + BLOCK) {
        if is_wrong(types, pairs.as_slice(), s * m + t) {
            follow(alloc, types, users, pairs, s * m + t)?;
            struck = true;
        }
    }
    Ok(struck)
}

/// Strikes out a pair, and those that no longer meet the clauses without it or without one of these.
fn follow(
    alloc: Global,
    types: &NumberedTypes,
    users: &[Vec<usize>],
    pairs: &mut Vec<bool>,
    first: usize,
) -> Result<(), AllocError>
    requires full { table.IsFull types.now pairs.old.items }
    requires inside { first < length pairs.old.items }
    requires wrong { table.IsWrong types.now pairs.old.items first }
    ensures { OnOk result (table.Fewer types.now pairs.old.items pairs.new.items) }
{
    let m = compared(types.len());
    let mut struck = Vec::new(alloc);
    struck.push(first)?;
    pairs[first] = false;
    let mut next = 0;
    while next < struck.len() {
        let s = struck[next] / m;
        let t = struck[next] % m;
        check_users(types, users, pairs, s, t, &mut struck)?;
        check_users(types, users, pairs, t, s, &mut struck)?;
        next += 1;
    }
    Ok(())
}

/// Strikes out what is wrong among the pairs of a type that uses the one and a type that uses the other.
fn check_users(
    types: &NumberedTypes,
    users: &[Vec<usize>],
    pairs: &mut Vec<bool>,
    s: usize,
    t: usize,
    struck: &mut Vec<usize>,
) -> Result<(), AllocError>
    requires full { table.IsFull types.now pairs.old.items }
    ensures { OnOk result (table.Follows types.now pairs.old.items struck.old.items pairs.new.items struck.new.items) }
{
    if s < users.len() && t < users.len() {
        for a in users[s].as_slice() {
            check_row(types, pairs, *a, users[t].as_slice(), struck)?;
        }
    }
    Ok(())
}

/// Strikes out what is wrong among the pairs of a type and of each of these.
fn check_row(
    types: &NumberedTypes,
    pairs: &mut Vec<bool>,
    a: usize,
    others: &[usize],
    struck: &mut Vec<usize>,
) -> Result<(), AllocError>
    requires full { table.IsFull types.now pairs.old.items }
    ensures { OnOk result (table.Follows types.now pairs.old.items struck.old.items pairs.new.items struck.new.items) }
{
    let m = compared(types.len());
    for b in others {
        if a < m && *b < m {
            check(types, pairs, a * m + *b, struck)?;
        }
    }
    Ok(())
}

/// Strikes out the pair at an index where it is wrong.
fn check(
    types: &NumberedTypes,
    pairs: &mut Vec<bool>,
    i: usize,
    struck: &mut Vec<usize>,
) -> Result<(), AllocError>
    requires full { table.IsFull types.now pairs.old.items }
    requires inside { i < length pairs.old.items }
    ensures { OnOk result (table.Follows types.now pairs.old.items struck.old.items pairs.new.items struck.new.items) }
{
    if is_wrong(types, pairs.as_slice(), i) {
        struck.push(i)?;
        pairs[i] = false;
    }
    Ok(())
}

/// For each of the first so many types, those of them with an operation that takes or gives it.
fn users_of(
    alloc: Global,
    types: &[NamedType],
    count: usize,
) -> Result<Vec<Vec<usize>>, AllocError> {
    let mut users = nobody(alloc, count)?;
    for (user, t) in types.iter().take(count).enumerate() {
        add_operations(t.operations.as_slice(), user, &mut users)?;
    }
    Ok(users)
}

fn nobody(alloc: Global, count: usize) -> Result<Vec<Vec<usize>>, AllocError> {
    let mut users = Vec::new(alloc);
    for _ in 0..count {
        users.push(Vec::new(alloc))?;
    }
    Ok(users)
}

fn add_operations(
    operations: &[NamedOperation],
    user: usize,
    users: &mut Vec<Vec<usize>>,
) -> Result<(), AllocError> {
    for o in operations {
        add_types(o.parameters.as_slice(), user, users)?;
        if let Some(of) = o.result {
            add_type(of, user, users)?;
        }
    }
    Ok(())
}

fn add_types(
    types: &[StaticType],
    user: usize,
    users: &mut Vec<Vec<usize>>,
) -> Result<(), AllocError> {
    for of in types {
        add_type(*of, user, users)?;
    }
    Ok(())
}

/// Adds a user of a type, where it is not the last that was added.
fn add_type(of: StaticType, user: usize, users: &mut Vec<Vec<usize>>) -> Result<(), AllocError> {
    let StaticType::Plain(Plain::Named(number)) = of else {
        return Ok(());
    };
    if number < users.len() && !is_last(users[number].as_slice(), user) {
        users[number].push(user)?;
    }
    Ok(())
}

fn is_last(users: &[usize], user: usize) -> bool {
    match users.last() {
        None => false,
        Some(last) => *last == user,
    }
}

/// Whether the pair at an index is in the table, and does not meet the clauses.
fn is_wrong(types: &NumberedTypes, pairs: &[bool], i: usize) -> bool
    requires full { table.IsFull types.now pairs.now }
    requires inside { i < length pairs.now }
    ensures wrong { result ≡ true → table.IsWrong types.now pairs.now i }
    ensures right { result ≡ false → table.IsRight types.now pairs.now i }
{
    let m = compared(types.len());
    if pairs[i] {
        !meets(types, pairs, i / m, i % m)
    } else {
        false
    }
}

/// Whether the one type has for each operation of the other one that stands for it.
fn meets(types: &NumberedTypes, pairs: &[bool], s: usize, t: usize) -> bool
    requires full { table.IsFull types.now pairs.now }
    ensures { result ≡ spec.meets types.now (table.in_table (length types.now) pairs.now) s t }
{
    let wanted = types.operations(t);
    for (place, w) in wanted.iter().enumerate() {
        if !one_fits(types, pairs, types.like(s, t, place), w) {
            return false;
        }
    }
    true
}

/// Whether the one operation with the wanted one's name, where there is one, takes and gives what that does.
fn one_fits(
    types: &NumberedTypes,
    pairs: &[bool],
    own: Option<&NamedOperation>,
    wanted: &NamedOperation,
) -> bool
    requires full { table.IsFull types.now pairs.now }
    ensures { result ≡ table.one_fits types.now (table.in_table (length types.now) pairs.now) (option_copied own.entry) wanted.now }
{
    match own {
        None => false,
        Some(o) => fits(types, pairs, wanted, o),
    }
}

/// Whether an operation takes what the wanted one takes, and gives what it gives.
fn fits(types: &NumberedTypes, pairs: &[bool], wanted: &NamedOperation, o: &NamedOperation) -> bool
    requires full { table.IsFull types.now pairs.now }
    ensures { result ≡ table.fits types.now (table.in_table (length types.now) pairs.now) wanted.now o.now }
{
    parameters_fit(
        types,
        pairs,
        wanted.parameters.as_slice(),
        o.parameters.as_slice(),
    ) && results_fit(types, pairs, o.result, wanted.result)
}

fn parameters_fit(
    types: &NumberedTypes,
    pairs: &[bool],
    wanted: &[StaticType],
    given: &[StaticType],
) -> bool
    requires full { table.IsFull types.now pairs.now }
    ensures { result ≡ spec.parameters_fit types.now (table.in_table (length types.now) pairs.now) wanted.now given.now }
{
    if wanted.len() != given.len() {
        return false;
    }
    for (w, p) in wanted.iter().zip(given) {
        if !conforms_by(types, pairs, *w, *p) {
            return false;
        }
    }
    true
}

fn results_fit(
    types: &NumberedTypes,
    pairs: &[bool],
    given: Option<StaticType>,
    wanted: Option<StaticType>,
) -> bool
    requires full { table.IsFull types.now pairs.now }
    ensures { result ≡ spec.results_fit types.now (table.in_table (length types.now) pairs.now) given wanted }
{
    match (given, wanted) {
        (None, None) => true,
        (Some(p), Some(w)) => conforms_by(types, pairs, p, w),
        _ => false,
    }
}

/// Whether a type conforms to another, where the pairs of the table are the named types that do.
pub fn conforms_by(types: &NumberedTypes, pairs: &[bool], s: StaticType, t: StaticType) -> bool
    requires full { table.IsFull types.now pairs.now }
    ensures { result ≡ spec.conforms_in types.now (table.in_table (length types.now) pairs.now) s t }
{
    match t {
        StaticType::Plain(of) => conforms_to_plain(types, pairs, s, of),
        StaticType::Vector(inner, of) => conforms_to_vector(s, inner, of),
        StaticType::Nil => conforms_to_nil(s),
        StaticType::Unknown => true,
    }
}

fn conforms_to_plain(types: &NumberedTypes, pairs: &[bool], s: StaticType, t: Plain) -> bool
    requires full { table.IsFull types.now pairs.now }
    ensures { result ≡ spec.conforms_to_plain types.now (table.in_table (length types.now) pairs.now) s t }
{
    match s {
        StaticType::Plain(of) => plain_conforms(types, pairs, of, t),
        StaticType::Vector(_, _) => asks_nothing(types, t),
        StaticType::Nil => is_reference(t),
        StaticType::Unknown => true,
    }
}

fn conforms_to_vector(s: StaticType, inner: usize, of: Plain) -> bool
    ensures { result ≡ spec.conforms_to_vector s inner of }
{
    match s {
        StaticType::Plain(_) => false,
        StaticType::Vector(own, element) => own == inner && is_same(element, of),
        StaticType::Nil | StaticType::Unknown => true,
    }
}

fn conforms_to_nil(s: StaticType) -> bool
    ensures { result ≡ spec.conforms_to_nil s }
{
    match s {
        StaticType::Plain(_) | StaticType::Vector(_, _) => false,
        StaticType::Nil | StaticType::Unknown => true,
    }
}

fn plain_conforms(types: &NumberedTypes, pairs: &[bool], s: Plain, t: Plain) -> bool
    requires full { table.IsFull types.now pairs.now }
    ensures { result ≡ spec.plain_conforms types.now (table.in_table (length types.now) pairs.now) s t }
{
    match s {
        Plain::Integer | Plain::Boolean | Plain::String => is_same(s, t),
        Plain::Any => asks_nothing(types, t),
        Plain::Node => is_same(s, t) || asks_nothing(types, t),
        Plain::Named(own) => named_conforms(types.len(), pairs, own, t),
    }
}

fn named_conforms(n: usize, pairs: &[bool], own: usize, t: Plain) -> bool
    requires full { length pairs.now ≡ table.compared n * table.compared n }
    ensures { result ≡ spec.named_conforms (table.in_table n pairs.now) own t }
{
    match t {
        Plain::Named(other) => holds(n, pairs, own, other),
        Plain::Any => true,
        Plain::Integer | Plain::Boolean | Plain::String | Plain::Node => false,
    }
}

/// Whether Any, Node and each vector type conform to a type.
fn asks_nothing(types: &NumberedTypes, t: Plain) -> bool
    ensures { result ≡ spec.asks_nothing types.now t }
{
    match t {
        Plain::Any => true,
        Plain::Named(number) => types.operations(number).is_empty(),
        Plain::Integer | Plain::Boolean | Plain::String | Plain::Node => false,
    }
}

fn holds(n: usize, pairs: &[bool], a: usize, b: usize) -> bool
    requires full { length pairs.now ≡ table.compared n * table.compared n }
    ensures { result ≡ table.in_table n pairs.now a b }
{
    a < n && b < n && holds_in_rows(compared(n), pairs, a, b)
}

/// What m rows say of two types. A type behind them conforms to each, and each to it.
fn holds_in_rows(m: usize, pairs: &[bool], a: usize, b: usize) -> bool
    requires few { m ≤ 1000 }
    requires full { length pairs.now ≡ m * m }
    ensures { result ≡ table.in_rows m pairs.now a b }
{
    if a < m && b < m {
        pairs[a * m + b]
    } else {
        true
    }
}
