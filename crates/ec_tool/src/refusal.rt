//! What is written where a node file or a schedule breaks a rule.
ghost use Rattle.std.specs.Prelude.{◌≡◌, ◌++◌, OnOk, IfOk};
ghost use Rattle.ec_tool.specs.Refusals.{node_rule_name, nodes_line, schedule_rule_name, line_text, schedule_line};

use ec_inputs::nodes::NodeRule;
use ec_inputs::schedule::ScheduleRule;
use ec_report::lines::push_number;
use std::alloc::{AllocError, Global};

/// `refused N3`
pub fn nodes_text(alloc: Global, rule: NodeRule) -> Result<Vec<u8>, AllocError>
    ensures { IfOk result (λ text. text.items ≡ nodes_line rule) }
{
    let mut text = Vec::from_slice(alloc, b"refused ")?;
    text.extend_from_slice(node_rule_name(rule))?;
    text.push(b'\n')?;
    Ok(text)
}

/// The rules of a node file are numbered from the least on.
fn node_rule_name(rule: NodeRule) -> &'static [u8]
    ensures { result.now ≡ node_rule_name rule }
{
    match rule {
        NodeRule::Length => b"N1",
        NodeRule::Document => b"N2",
        NodeRule::Tables => b"N3",
        NodeRule::Keys => b"N4",
        NodeRule::Name => b"N5",
        NodeRule::Kind => b"N6",
        NodeRule::Size => b"N7",
    }
}

/// `refused S3 at line 2`
pub fn schedule_text(
    alloc: Global,
    rule: ScheduleRule,
    line: Option<u32>,
) -> Result<Vec<u8>, AllocError>
    ensures { IfOk result (λ text. text.items ≡ schedule_line rule line) }
{
    let mut text = Vec::from_slice(alloc, b"refused ")?;
    text.extend_from_slice(schedule_rule_name(rule))?;
    push_place(alloc, line, &mut text)?;
    text.push(b'\n')?;
    Ok(text)
}

/// The rules of a schedule are numbered from the least on.
fn schedule_rule_name(rule: ScheduleRule) -> &'static [u8]
    ensures { result.now ≡ schedule_rule_name rule }
{
    match rule {
        ScheduleRule::Length => b"S1",
        ScheduleRule::Byte => b"S2",
        ScheduleRule::Word => b"S3",
        ScheduleRule::Form => b"S4",
        ScheduleRule::Number => b"S5",
    }
}

/// ` at line 2`, where the fault is one line's.
fn push_place(alloc: Global, line: Option<u32>, out: &mut Vec<u8>) -> Result<(), AllocError>
    ensures { OnOk result (out.new.items ≡ out.old.items ++ line_text line) }
{
    if let Some(line) = line {
        out.extend_from_slice(b" at line ")?;
        push_number(alloc, line.into(), out)?;
    }
    Ok(())
}
