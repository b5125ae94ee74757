//! Heights, tree nodes and limits.
ghost use Rattle.std.specs.Prelude.{◌≡◌};
ghost use Rattle.ec_rules.specs.Forms.{form_seen};
ghost use Rattle.ec_rules.specs.Heights as heights;
ghost use Rattle.ec_rules.specs.Limits as limits;
ghost use Rattle.ec_rules.specs.Lists as lists;
ghost use Rattle.ec_rules.specs.Nodes as nodes;
ghost use Rattle.ec_rules.specs.Rules.{noted};
ghost use Rattle.ec_rules.specs.Statements as statements;

use crate::Rule;
use crate::faults::Faults;
use crate::form::Form;
use crate::judged::{Done, Judged};
use ec_ast::{Literal, Parameter, Span};
use ec_types::conform::TypeTable;

/// A sum of counts, which stands still at 2^64 - 1.
pub fn plus(a: usize, b: usize) -> usize
    ensures { result ≡ lists.plus a b }
{
    a.saturating_add(b)
}

// ---- heights

/// The height of a pair.
pub fn pair_height(a: &Judged, b: &Judged) -> usize
    ensures { result ≡ heights.pair_height a.now b.now }
{
    a.height.max(plus(1, b.height))
}

/// The height of a chain of pairs.
pub fn chain_height(first: &Judged, more: &[Judged]) -> usize
    ensures { result ≡ heights.chain_height first.now more.now }
{
    let mut height = first.height;
    for value in more {
        height = height.max(plus(1, value.height));
    }
    height
}

/// The greatest height.
pub fn greatest_height(values: &[Judged]) -> usize
    ensures { result ≡ heights.greatest_height values.now }
{
    let mut height = 0;
    for value in values {
        height = height.max(value.height);
    }
    height
}

/// The height of values that are held on top of so many others, one after another.
pub fn stacked(held: usize, values: &[Judged]) -> usize
    ensures { result ≡ heights.stacked held values.now }
{
    let mut height = 0;
    let mut held = held;
    for value in values {
        height = height.max(plus(held, value.height));
        held = plus(held, 1);
    }
    height
}

/// The height of an assignment.
pub fn assigned_height(form: Form<'_>, target: &Judged, value: &Judged) -> usize
    ensures { result ≡ statements.assigned_height (form_seen form.entry) target.now value.now }
{
    match form {
        Form::NameAlone(_) => value.height,
        Form::Literal(_)
        | Form::Negated
        | Form::Constructor(_)
        | Form::Vector(_)
        | Form::Created(_)
        | Form::Itself
        | Form::Other => target.height.max(plus(2, value.height)),
    }
}

// ---- tree nodes

/// The tree nodes of values.
pub fn total_nodes(values: &[Judged]) -> usize
    ensures { result ≡ nodes.total_nodes values.now }
{
    let mut count = 0;
    for value in values {
        count = plus(count, value.nodes);
    }
    count
}

/// The tree nodes of a chain of operators.
pub fn chain_nodes(first: &Judged, more: &[Judged]) -> usize
    ensures { result ≡ nodes.chain_nodes first.now more.now }
{
    let mut count = first.nodes;
    for value in more {
        count = plus(count, plus(1, value.nodes));
    }
    count
}

// ---- one thing behind another

impl Done {
    /// Nothing.
    pub fn nothing() -> Done
        ensures { result ≡ statements.nothing_done }
    {
        Done {
            height: 0,
            nodes: 0,
            variables: 0,
        }
    }

    /// What an expression is.
    pub fn of(value: &Judged) -> Done
        ensures { result ≡ statements.done_of value.now }
    {
        Done {
            height: value.height,
            nodes: value.nodes,
            variables: 0,
        }
    }

    /// One thing and another behind it.
    pub fn both(self, more: Done) -> Done
        ensures { result ≡ statements.done_both self more }
    {
        Done {
            height: self.height.max(more.height),
            nodes: plus(self.nodes, more.nodes),
            variables: plus(self.variables, more.variables),
        }
    }
}

// ---- limits

fn begins_at(first: Option<usize>, at: Span) -> bool
    ensures { result ≡ limits.begins_at first at }
{
    match first {
        None => false,
        Some(first) => first == at.from as usize,
    }
}

/// At most 1,000 typeobjects, classes and object constructors: that with its name at a place isn't one too many.
pub(crate) fn few_types(faults: &mut Faults, table: &TypeTable, at: Span)
    ensures { faults.new ≡ noted faults.old (limits.many_types table.now at) }
{
    faults.note_if(begins_at(table.place(1000), at), Rule::ManyTypes, at);
}

/// At most 4,000 operations: that at a place isn't one too many.
pub fn few_operations(faults: &mut Faults, table: &TypeTable, at: Span)
    ensures { faults.new ≡ noted faults.old (limits.many_operations table.now at) }
{
    faults.note_if(
        begins_at(table.operation_place(4000), at),
        Rule::ManyOperations,
        at,
    );
}

/// At most 16 parameters.
pub fn few_parameters(faults: &mut Faults, parameters: &[Parameter])
    ensures { faults.new ≡ noted faults.old (limits.many_parameters parameters.now) }
{
    if let Some(p) = parameters.get(16) {
        faults.note(Rule::ManyParameters, p.name.at);
    }
}

/// At most 100 named variables with value height, and 4,000 tree nodes, in an operation at a place. So many of its variables are
/// declared outside its block.
pub fn small_operation(faults: &mut Faults, at: Span, variables: usize, done: &Done)
    ensures { faults.new ≡ noted faults.old (limits.too_large at variables done.now) }
{
    let count = plus(plus(variables, done.variables), done.height);
    faults.note_if(count > 100, Rule::ManyVariables, at);
    faults.note_if(done.nodes > 4000, Rule::Size, at);
}

/// An operation of an object or a class, at a place: small, and within the operations that a program may have.
#[tactic(auto, using(crate::proofs::Noted::noted_joined))]
pub fn measured_operation(
    faults: &mut Faults,
    table: &TypeTable,
    at: Span,
    variables: usize,
    done: &Done,
)
    ensures { faults.new ≡ noted faults.old (limits.measured table.now at variables done.now) }
{
    small_operation(faults, at, variables, done);
    few_operations(faults, table, at);
}

/// A string literal of at most 65,535 bytes.
pub fn short_literal(faults: &mut Faults, l: &Literal)
    ensures { faults.new ≡ noted faults.old (limits.long_literal l.now) }
{
    faults.note_if(l.text.len() > 65535, Rule::Size, l.at);
}
