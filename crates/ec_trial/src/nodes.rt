//! The node file of a trial.
ghost use Rattle.std.specs.Prelude.{◌≡◌, ◌++◌, IfOk, OnOk, string_bytes};
ghost use Rattle.ec_report.specs.Report.{kind_text};
ghost use Rattle.ec_trial.specs.Texts.{kind_line, name_lines, node_text, nodes_text};

use crate::drawn::Drawn;
use ec_base::list::Seq;
use ec_world::node::Kind;
use ec_world::value::Text;
use std::alloc::{AllocError, Global};

/// The node file by what is drawn. The error is want of memory.
#[tactic(auto, unfolding(crate::specs::Texts::nodes_text))]
pub(crate) fn write_nodes(alloc: Global, drawn: &Drawn) -> Result<Text, AllocError>
    ensures { IfOk result (λ text. text ≡ nodes_text drawn.now) }
{
    let mut out = String::new(alloc);
    for (j, kind) in drawn.kinds.as_slice().iter().enumerate() {
        push_node(j, *kind, &mut out)?;
    }
    Ok(Seq::from_vec(out.into_bytes()))
}

/// The lines of a node.
fn push_node(j: usize, kind: Kind, out: &mut String) -> Result<(), AllocError>
    ensures { OnOk result (string_bytes out.new ≡ string_bytes out.old ++ node_text j kind) }
{
    push_name(j, out)?;
    push_kind(kind, out)?;
    out.push_str("blocks = 4096\ntext = 65536\n")
}

/// The first line of a node, and that of its name.
fn push_name(j: usize, out: &mut String) -> Result<(), AllocError>
    ensures { OnOk result (string_bytes out.new ≡ string_bytes out.old ++ name_lines j) }
{
    write!(out, "[[node]]\nname = \"n{j}\"\n")
}

/// The line of a node's kind.
fn push_kind(kind: Kind, out: &mut String) -> Result<(), AllocError>
    ensures { OnOk result (string_bytes out.new ≡ string_bytes out.old ++ kind_line kind) }
{
    let kind = kind_text(kind);
    writeln!(out, "kind = \"{kind}\"")
}

/// The word for a kind.
fn kind_text(kind: Kind) -> &'static str
    ensures { result.now ≡ kind_text kind }
{
    match kind {
        Kind::Riscv => "riscv",
        Kind::Mips => "mips",
    }
}
