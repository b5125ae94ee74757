//! What operands are wanted to be, and the faults of operands that are something else.
ghost use Rattle.std.specs.Prelude.{◌≡◌};
ghost use Rattle.ec_rules.specs.Operands as spec;
ghost use Rattle.ec_rules.specs.Rules.{noted};
ghost use Rattle.ec_rules.specs.Types as types;

use crate::Rule;
use crate::faults::Faults;
use crate::judged::{Added, Judged};
use ec_ast::{Additive, Comparison, Span};
use ec_types::conform::TypeTable;
use ec_types::conform::static_type::{
    Plain, StaticType, is_reference_type, is_same_type, is_value,
};

/// What a place takes.
#[derive(Clone, Copy, PartialEq, Eq, Debug)]
pub enum Wanted {
    Integer,
    Boolean,
    String,
    Reference,
    Vector,
}

pub const INTEGER: StaticType = StaticType::Plain(Plain::Integer);

pub const BOOLEAN: StaticType = StaticType::Plain(Plain::Boolean);

pub const STRING: StaticType = StaticType::Plain(Plain::String);

pub const NODE: StaticType = StaticType::Plain(Plain::Node);

/// Whether a type is one that a place takes.
pub fn takes(wanted: Wanted, of: StaticType) -> bool
    ensures { result ≡ types.takes wanted of }
{
    match wanted {
        Wanted::Integer => is_same_type(INTEGER, of),
        Wanted::Boolean => is_same_type(BOOLEAN, of),
        Wanted::String => is_same_type(STRING, of),
        Wanted::Reference => is_reference_type(of),
        Wanted::Vector => matches!(of, StaticType::Vector(_, _)),
    }
}

/// Whether a place takes what has a type, or has none.
pub fn fits(wanted: Wanted, of: Option<StaticType>) -> bool
    ensures { result ≡ types.fits wanted of }
{
    match of {
        None => true,
        Some(of) => takes(wanted, of),
    }
}

/// A value is wanted to be something.
pub fn wants(faults: &mut Faults, wanted: Wanted, value: &Judged)
    ensures { faults.new ≡ noted faults.old (spec.wants wanted value.now) }
{
    faults.note_unless(fits(wanted, value.of), Rule::Mismatch, value.at);
}

/// Values are all wanted to be the same.
pub fn wants_all(faults: &mut Faults, wanted: Wanted, values: &[Judged])
    ensures { faults.new ≡ noted faults.old (spec.wants_all wanted values.now) }
{
    for value in values {
        wants(faults, wanted, value);
    }
}

/// A value is to conform to a type.
pub fn must_conform(faults: &mut Faults, table: &TypeTable, wanted: StaticType, value: &Judged)
    ensures { faults.new ≡ noted faults.old (spec.must_conform table.now wanted value.now) }
{
    faults.note_unless(
        conforms_if(table, value.of, wanted),
        Rule::Mismatch,
        value.at,
    );
}

fn conforms_if(table: &TypeTable, of: Option<StaticType>, wanted: StaticType) -> bool
    ensures { result ≡ spec.conforms_if table.now of wanted }
{
    match of {
        None => true,
        Some(of) => table.conforms(of, wanted),
    }
}

/// A value is to conform to a type, where there is one.
pub fn must_conform_if(
    faults: &mut Faults,
    table: &TypeTable,
    wanted: Option<StaticType>,
    value: &Judged,
)
    ensures { faults.new ≡ noted faults.old (spec.must_conform_if table.now wanted value.now) }
{
    if let Some(wanted) = wanted {
        must_conform(faults, table, wanted, value);
    }
}

// ---- sums

fn operand_of(operator: Additive) -> Wanted
    ensures { result ≡ spec.operand_of operator }
{
    match operator {
        Additive::Plus | Additive::Minus => Wanted::Integer,
        Additive::Concat => Wanted::String,
    }
}

/// What an operator of a sum gives.
pub fn result_type(operator: Additive) -> StaticType
    ensures { result ≡ spec.result_type operator }
{
    match operator {
        Additive::Plus | Additive::Minus => INTEGER,
        Additive::Concat => STRING,
    }
}

/// The operands of one operator, and whether no fault is within what stands before it, in them, or within what stands behind.
fn addend(
    faults: &mut Faults,
    at: Span,
    is_clean: bool,
    left: Option<StaticType>,
    a: &Added,
) -> bool
    ensures noted { faults.new ≡ noted faults.old (spec.addend_faults at left a.now) }
    ensures clean { result ≡ spec.is_clean_behind at is_clean left a.now }
{
    let outer = faults.begin();
    let wanted = operand_of(a.operator);
    faults.note_unless(fits(wanted, left), Rule::Mismatch, at);
    wants(faults, wanted, &a.value);
    let fits = faults.end(outer);
    is_clean && (fits && a.value.is_clean)
}

fn type_if(is_clean: bool, of: StaticType) -> Option<StaticType>
    ensures { result ≡ spec.type_if is_clean of }
{
    if is_clean { Some(of) } else { None }
}

/// The operands of a sum, of which the first begins at a place.
pub fn sum(faults: &mut Faults, first: &Judged, addends: &[Added])
    ensures { faults.new ≡ noted faults.old (spec.sum_faults first.now.at first.now.is_clean first.now.of addends.now) }
{
    let mut is_clean = first.is_clean;
    let mut left = first.of;
    for a in addends {
        is_clean = addend(faults, first.at, is_clean, left, a);
        left = type_if(is_clean, result_type(a.operator));
    }
}

// ---- comparisons

/// Whether a comparison takes a type at all.
fn can_compare(op: Comparison, of: StaticType) -> bool
    ensures { result ≡ spec.can_compare op of }
{
    match op {
        Comparison::Same | Comparison::NotSame => true,
        Comparison::Equal | Comparison::NotEqual => is_value(of),
        Comparison::Less | Comparison::LessEqual | Comparison::More | Comparison::MoreEqual =>
            is_same_type(INTEGER, of) || is_same_type(STRING, of),
    }
}

fn are_alike(a: StaticType, b: StaticType) -> bool
    ensures { result ≡ spec.are_alike a b }
{
    is_same_type(a, b) || (is_reference_type(a) && is_reference_type(b))
}

fn left_fits(op: Comparison, left: Option<StaticType>) -> bool
    ensures { result ≡ spec.can_compare_if op left }
{
    match left {
        None => true,
        Some(of) => can_compare(op, of),
    }
}

fn is_like_left(op: Comparison, left: Option<StaticType>, right: StaticType) -> bool
    ensures { result ≡ spec.is_like_left op left right }
{
    match left {
        None => true,
        Some(left) => !can_compare(op, left) || are_alike(left, right),
    }
}

fn right_fits(op: Comparison, left: Option<StaticType>, right: Option<StaticType>) -> bool
    ensures { result ≡ spec.right_fits op left right }
{
    match right {
        None => true,
        Some(right) => can_compare(op, right) && is_like_left(op, left, right),
    }
}

/// The operands of a comparison.
pub fn comparison(faults: &mut Faults, op: Comparison, left: &Judged, right: &Judged)
    ensures { faults.new ≡ noted faults.old (spec.comparison_faults op left.now right.now) }
{
    faults.note_unless(left_fits(op, left.of), Rule::Mismatch, left.at);
    faults.note_unless(right_fits(op, left.of, right.of), Rule::Mismatch, right.at);
}
