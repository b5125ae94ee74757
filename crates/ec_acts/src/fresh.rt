//! Nodes that have a program's literals and constants, and nothing else.
ghost use Rattle.std.specs.Prelude.{◌≡◌, ◌≤◌, ◌<◌, ℕ, [], length, IfOk, OnOk, None, Some, slice_get};
ghost use Rattle.ec_acts.specs.Fresh.{AreAtFirst, CanHold, Defaulted, Interned, IsAtFirst};
ghost use Rattle.ec_world.specs.Held.{Distinct};
ghost use Rattle.ec_world.specs.Words.{text_bytes};
ghost use Rattle.ec_stores.specs.Node.{store_of};
ghost use Rattle.ec_things.specs.Texts.{InPool};
ghost use Rattle.ec_world.specs.declared.node.NodeSpec.{NodeSpec as NodeSpecData};

use ec_base::list::Seq;
use ec_code::code::Parts;
use ec_node_frames::operands::kind_of;
use ec_objects::constants::set_constant;
use ec_stores::node::NodeStore;
use ec_types::conform::static_type::StaticType;
use ec_world::node::NodeSpec;
use ec_world::value::{Text, copy_text};
use std::alloc::{AllocError, Global};

/// Nodes of these sizes, each with the literals at their numbers and with the defaults of the constants. The error is want of memory.
pub(crate) fn fresh_nodes(
    alloc: Global,
    parts: &Parts,
    specs: &[NodeSpec],
) -> Result<Seq<NodeStore>, AllocError>
    requires { (k : ℕ) (spec : NodeSpecData) → slice_get specs.now k ≡ Some spec → CanHold parts.now spec }
    ensures { IfOk result (λ nodes. AreAtFirst parts.now specs.now (length specs.now) nodes) }
{
    let mut nodes = Seq::new(alloc);
    for k in 0..specs.len() {
        let node = fresh_node(alloc, parts, &specs[k])?;
        nodes.push(node)?;
    }
    Ok(nodes)
}

/// A node of this size with the literals and the defaults of the constants. The error is want of memory.
fn fresh_node(alloc: Global, parts: &Parts, spec: &NodeSpec) -> Result<NodeStore, AllocError>
    requires { CanHold parts.now spec.now }
    ensures { IfOk result (λ node. IsAtFirst parts.now spec.now (store_of node)) }
{
    let constants = parts.constants.len() as u32;
    let mut node = NodeStore::new(alloc, spec.kind, spec.blocks, spec.text, constants)?;
    intern_all(&mut node, &parts.literals)?;
    set_constants(&mut node, alloc, &parts.constants)?;
    Ok(node)
}

/// Texts come to a node that has none, in order. The error is want of memory, or that they are more than 2^32.
fn intern_all(node: &mut NodeStore, texts: &Seq<Text>) -> Result<(), AllocError>
    requires none { (i : ℕ) → (store_of node.old).text i ≡ None }
    requires once { Distinct texts.now }
    requires room { text_bytes texts.now ≤ (store_of node.old).text_free }
    ensures { OnOk result (Interned texts.now (length texts.now) (store_of node.old) (store_of node.new)) }
{
    let _kind = node.kind();
    for i in 0..texts.len() {
        let text = copy_text(texts.at(i))?;
        let _place = node.intern(text)?;
    }
    Ok(())
}

/// Each constant gets its default, at a node that has the empty text. The error is want of memory.
fn set_constants(
    node: &mut NodeStore,
    alloc: Global,
    types: &Seq<StaticType>,
) -> Result<(), AllocError>
    requires few { length types.now ≤ 4000 }
    requires there { (i : ℕ) → i < length types.now → (store_of node.old).global i ≡ Some 0 }
    requires empty { InPool (store_of node.old) [] }
    ensures { OnOk result (Defaulted types.now (length types.now) (store_of node.old) (store_of node.new)) }
{
    let _kind = node.kind();
    for i in 0..types.len() {
        let value = kind_of(*types.at(i)).default_value(alloc);
        set_constant(node, i as u32, &value)?;
    }
    Ok(())
}
