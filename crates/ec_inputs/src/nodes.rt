//! Node files, read by `toml`.
ghost use Rattle.std.specs.Prelude.{◌≡◌, ◌&&◌, IfOk, IfErr, map, option_map, option_and_then, length, codes, Some, None, is_some};
ghost use Rattle.std.specs.Prelude.{Ok, Err, pos};
ghost use Rattle.std.specs.List.{list_all};
ghost use Rattle.std.specs.Char.{is_ascii_alphanumeric};
ghost use Rattle.toml.specs.Data.{get_member, as_array, Members};
ghost use Rattle.toml.specs.View.{view, table_view, items_view};
ghost use Rattle.ec_inputs.specs.Nodes as spec;
ghost use Rattle.ec_inputs.specs.Nodes.{NodesOf, IfRefused};
ghost use Rattle.ec_inputs.specs.declared.nodes.NodesError.TheVariants.{Memory};

use ec_base::list::Seq;
use ec_world::node::{Kind, NodeSpec};
use std::alloc::{AllocError, Global};
use thiserror::Error;
use toml::{Table, Value};

/// The rules of a node file, the least first.
#[derive(Clone, Copy, PartialEq, Eq, Debug)]
pub enum NodeRule {
    /// At most 1,048,576 bytes.
    Length,
    /// A TOML document.
    Document,
    /// One key, `node`, with an array of 1 to 64 tables.
    Tables,
    /// Each table has the keys `name`, `kind`, `blocks` and `text`, and no other.
    Keys,
    /// Each name is a string of 1 to 16 ASCII letters and digits, and no name is there twice; case counts.
    Name,
    /// Each kind is the string `riscv` or `mips`.
    Kind,
    /// Blocks are a whole number from 0 to 65,536, and text is one from 0 to 16,777,216.
    Size,
}

/// Why a node file gives no nodes.
#[derive(Clone, Copy, PartialEq, Eq, Debug, Error)]
pub enum NodesError {
    /// The file breaks this rule and none before it.
    #[error("the node file breaks a rule: {0:?}")]
    Refused(NodeRule),
    /// There was no memory.
    #[error("there was no memory")]
    Memory,
}

impl From<AllocError> for NodesError {
    ghost from_gives = { λ _ e. e ≡ Memory };

    fn from(_error: AllocError) -> NodesError {
        NodesError::Memory
    }
}

/// The most bytes of a node file.
const LONGEST: usize = 1_048_576;

/// The most nodes of a node file.
const MOST_NODES: usize = 64;

/// The most bytes of a node's name.
const LONGEST_NAME: usize = 16;

/// The most blocks of a node.
const MOST_BLOCKS: u32 = 65_536;

/// The most bytes of a node's text.
const MOST_TEXT: u32 = 16_777_216;

/// The nodes that the bytes of a node file say, in their order.
/// Refused comes with the least rule that the file breaks.
pub fn read_nodes(alloc: Global, bytes: &[u8]) -> Result<Vec<NodeSpec>, NodesError>
    ensures nodes { IfOk result (λ nodes. NodesOf bytes.now ≡ Ok nodes.items) }
    ensures refused { IfErr result (λ error. IfRefused error (λ r. NodesOf bytes.now ≡ Err r)) }
{
    if bytes.len() > LONGEST {
        return Err(NodesError::Refused(NodeRule::Length));
    }
    match toml::table_from_slice(alloc, bytes) {
        Ok(document) => nodes_of(alloc, &document),
        Err(error) => {
            if error.is_memory() {
                Err(NodesError::Memory)
            } else {
                Err(NodesError::Refused(NodeRule::Document))
            }
        }
    }
}

/// The nodes of a document.
fn nodes_of(alloc: Global, document: &Table) -> Result<Vec<NodeSpec>, NodesError>
    ensures nodes { IfOk result (λ nodes. spec.nodes_of (table_view document.now) ≡ Ok nodes.items) }
    ensures refused { IfErr result (λ error. IfRefused error (λ r. spec.nodes_of (table_view document.now) ≡ Err r)) }
{
    match tables_of(alloc, document)? {
        Some(tables) => nodes_by(alloc, tables.as_slice()),
        None => Err(NodesError::Refused(NodeRule::Tables)),
    }
}

/// The nodes of some tables.
#[tactic(auto, unfolding(crate::specs::Nodes::nodes_by))]
fn nodes_by(alloc: Global, tables: &[&Table]) -> Result<Vec<NodeSpec>, NodesError>
    ensures nodes { IfOk result (λ nodes. spec.nodes_by (map (λ t. table_view t.now) tables.now) ≡ Ok nodes.items) }
    ensures refused { IfErr result (λ error. IfRefused error (λ r. spec.nodes_by (map (λ t. table_view t.now) tables.now) ≡ Err r)) }
{
    if !have_keys(tables) {
        return Err(NodesError::Refused(NodeRule::Keys));
    }
    if !have_names(tables) {
        return Err(NodesError::Refused(NodeRule::Name));
    }
    if !have_kinds(tables) {
        return Err(NodesError::Refused(NodeRule::Kind));
    }
    match nodes_in(alloc, tables)? {
        Some(nodes) => Ok(nodes),
        None => Err(NodesError::Refused(NodeRule::Size)),
    }
}

/// The tables of the array at `node`, the one key.
#[tactic(auto, unfolding(crate::specs::Nodes::tables_of))]
fn tables_of<'a>(alloc: Global, document: &'a Table) -> Result<Option<Vec<&'a Table>>, AllocError>
    ensures { IfOk result (λ o. option_map (λ v. map (λ t. table_view t.now) v.items) o ≡ spec.tables_of (table_view document.entry.now)) }
{
    if key_count(document) != 1 {
        return Ok(None);
    }
    let Some(values) = elements(document) else {
        return Ok(None);
    };
    match tables_in(alloc, values)? {
        Some(tables) if is_fit_count(tables.len()) => Ok(Some(tables)),
        _ => Ok(None),
    }
}

/// As many nodes as there may be.
fn is_fit_count(n: usize) -> bool
    ensures { result ≡ spec.is_fit_count n }
{
    1 <= n && n <= MOST_NODES
}

/// The elements of the array at `node`.
fn elements(document: &Table) -> Option<&[Value]>
    ensures { option_map (λ v. items_view v.now) result ≡ option_and_then as_array (get_member (codes "node") (table_view document.now)) }
{
    match member(document, "node") {
        None => None,
        Some(value) => match value.as_array() {
            None => None,
            Some(array) => Some(array.as_slice()),
        },
    }
}

/// The tables that some values are, unless one is none.
fn tables_in<'a>(alloc: Global, values: &'a [Value]) -> Result<Option<Vec<&'a Table>>, AllocError>
    ensures { IfOk result (λ o. option_map (λ v. map (λ t. table_view t.now) v.items) o ≡ spec.tables_in (items_view values.entry.now)) }
{
    let mut tables = Vec::new(alloc);
    for value in values {
        match value.as_table() {
            Some(table) => tables.push(table)?,
            None => return Ok(None),
        }
    }
    Ok(Some(tables))
}

/// Each table has the four keys and no other.
fn have_keys(tables: &[&Table]) -> bool
    ensures { result ≡ list_all spec.has_keys (map (λ t. table_view t.now) tables.now) }
{
    for table in tables {
        if !has_keys(table) {
            return false;
        }
    }
    true
}

#[tactic(auto, unfolding(crate::specs::Nodes::has_keys))]
fn has_keys(table: &Table) -> bool
    ensures { result ≡ spec.has_keys (table_view table.now) }
{
    key_count(table) == 4
        && has(table, "name")
        && has(table, "kind")
        && has(table, "blocks")
        && has(table, "text")
}

fn has(table: &Table, key: &str) -> bool
    ensures { result ≡ spec.has key.now (table_view table.now) }
{
    member(table, key).is_some()
}

fn key_count(table: &Table) -> usize
    ensures { result ≡ spec.key_count (table_view table.now) }
{
    table.len()
}

fn member<'a>(table: &'a Table, key: &str) -> Option<&'a Value>
    ensures { option_map (λ v. view v.now) result ≡ get_member key.now (table_view table.now) }
{
    table.get(key)
}

/// Each table has a name, and no other has the same.
fn have_names(tables: &[&Table]) -> bool
    ensures { result ≡ spec.have_names (map (λ t. table_view t.now) tables.now) }
{
    are_names(tables) && have_own_names(tables)
}

fn are_names(tables: &[&Table]) -> bool
    ensures { result ≡ list_all (λ t. spec.is_name (spec.name_of t)) (map (λ t. table_view t.now) tables.now) }
{
    for table in tables {
        if !is_name(name_of(table)) {
            return false;
        }
    }
    true
}

/// 1 to 16 ASCII letters and digits.
fn is_name(text: &str) -> bool
    ensures { result ≡ spec.is_name text.now }
{
    let bytes = text.as_bytes();
    1 <= bytes.len() && bytes.len() <= LONGEST_NAME && are_alphanumeric(bytes)
}

fn are_alphanumeric(bytes: &[u8]) -> bool
    ensures { result ≡ list_all is_ascii_alphanumeric bytes.now }
{
    bytes.iter().all(u8::is_ascii_alphanumeric)
}

/// No name is there twice; case counts.
fn have_own_names(tables: &[&Table]) -> bool
    ensures { result ≡ spec.have_own_names (map (λ t. table_view t.now) tables.now) }
{
    let mut rest = tables;
    while let [table, others @ ..] = rest {
        if is_among(name_of(table), others) {
            return false;
        }
        rest = others;
    }
    true
}

fn is_among(name: &str, tables: &[&Table]) -> bool
    ensures { result ≡ spec.is_among name.now (map (λ t. table_view t.now) tables.now) }
{
    for table in tables {
        if name_of(table) == name {
            return true;
        }
    }
    false
}

fn name_of(table: &Table) -> &str
    ensures { result.now ≡ spec.name_of (table_view table.now) }
{
    string_at(table, "name")
}

/// The string at a key, empty where there is none.
#[tactic(auto, unfolding(crate::specs::Nodes::string_at))]
fn string_at<'a>(table: &'a Table, key: &str) -> &'a str
    ensures { result.now ≡ spec.string_at key.now (table_view table.now) }
{
    match member(table, key) {
        None => "",
        Some(value) => match value.as_str() {
            None => "",
            Some(text) => text,
        },
    }
}

/// Each table has a kind.
fn have_kinds(tables: &[&Table]) -> bool
    ensures { result ≡ spec.have_kinds (map (λ t. table_view t.now) tables.now) }
{
    for table in tables {
        if kind_of(table).is_none() {
            return false;
        }
    }
    true
}

fn kind_of(table: &Table) -> Option<Kind>
    ensures { result ≡ spec.kind_of (table_view table.now) }
{
    match string_at(table, "kind") {
        "riscv" => Some(Kind::Riscv),
        "mips" => Some(Kind::Mips),
        _ => None,
    }
}

/// The nodes of some tables, unless a table has none.
fn nodes_in(alloc: Global, tables: &[&Table]) -> Result<Option<Vec<NodeSpec>>, AllocError>
    ensures { IfOk result (λ o. option_map (λ v. v.items) o ≡ spec.nodes_in (map (λ t. table_view t.now) tables.now)) }
{
    let mut nodes = Vec::new(alloc);
    for table in tables {
        match node_of(alloc, table)? {
            Some(node) => nodes.push(node)?,
            None => return Ok(None),
        }
    }
    Ok(Some(nodes))
}

/// The node of a table.
#[tactic(auto, unfolding(crate::specs::Nodes::node_of))]
fn node_of(alloc: Global, table: &Table) -> Result<Option<NodeSpec>, AllocError>
    ensures { IfOk result (λ o. o ≡ spec.node_of (table_view table.now)) }
{
    let Some(kind) = kind_of(table) else {
        return Ok(None);
    };
    let Some(blocks) = number_at(table, "blocks", MOST_BLOCKS) else {
        return Ok(None);
    };
    let Some(text) = number_at(table, "text", MOST_TEXT) else {
        return Ok(None);
    };
    let name = Seq::from_vec(Vec::from_slice(alloc, name_of(table).as_bytes())?);
    Ok(Some(NodeSpec {
        name,
        kind,
        blocks,
        text,
    }))
}

/// The whole number at a key, from 0 to a limit.
#[tactic(auto, unfolding(crate::specs::Nodes::number_at))]
fn number_at(table: &Table, key: &str, most: u32) -> Option<u32>
    ensures { result ≡ spec.number_at key.now most (table_view table.now) }
{
    match member(table, key) {
        None => None,
        Some(value) => match value.as_integer() {
            None => None,
            Some(n) => whole(most, n),
        },
    }
}

fn whole(most: u32, n: i64) -> Option<u32>
    ensures { result ≡ spec.whole most n }
{
    if 0 <= n && n <= i64::from(most) {
        Some(n as u32)
    } else {
        None
    }
}
