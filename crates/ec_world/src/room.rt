//! Room on a node.
ghost use Rattle.std.specs.Prelude.{◌≡◌, IfSome, IfNone};
ghost use Rattle.ec_world.specs.Held.{Lacks, Fits};

use crate::value::NodeNo;

/// What an entry needs of a node, and what is free there before it: blocks, and bytes of text.
#[derive(Clone, Copy, Debug)]
pub struct Needs {
    pub blocks: u64,
    pub free_blocks: u64,
    pub bytes: u64,
    pub free_bytes: u64,
}

/// A part of a node that can be full.
#[derive(Clone, Copy, PartialEq, Eq, Debug)]
pub enum Part {
    Blocks,
    Text,
}

/// A lack of room at a node: in which part, what is needed, and what is free (blocks, or bytes of text).
#[derive(Clone, Copy, PartialEq, Eq, Debug)]
pub struct Lack {
    pub node: NodeNo,
    pub part: Part,
    pub need: u64,
    pub free: u64,
}

/// What a node lacks, if anything, blocks before text.
pub fn lack_at(node: NodeNo, needs: Needs) -> Option<Lack>
    ensures some { IfSome result (λ f. (f.node ≡ node) × Lacks f.part needs f.need f.free) }
    ensures none { IfNone result (Fits needs) }
{
    if needs.blocks > needs.free_blocks {
        return Some(Lack {
            node,
            part: Part::Blocks,
            need: needs.blocks,
            free: needs.free_blocks,
        });
    }
    if needs.bytes > needs.free_bytes {
        return Some(Lack {
            node,
            part: Part::Text,
            need: needs.bytes,
            free: needs.free_bytes,
        });
    }
    None
}
