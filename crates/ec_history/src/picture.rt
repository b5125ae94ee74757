//! A map as a picture: SVG, with a lane for each node, a line for each object, and boxes for what each process runs.
use crate::course::{Stretch, at_least_one};
use crate::history::{History, NodeSeen};
use crate::layout::{LEFT, LETTER, Lane, Layout, PlacedNote, PlacedStay, Scale, lay_out};
use std::alloc::{AllocError, Global};

/// Fills of boxes, process by process: light, so that dark letters can be read on them, and told apart by eyes that don't tell red from green.
const FILLS: [&str; 6] = [
    "#f5c76b", "#a9d8f5", "#8fd3bd", "#f6ef9a", "#e3b5d0", "#cccccc",
];

/// Writes the picture of a history.
pub fn write_picture(alloc: Global, history: &History, out: &mut String) -> Result<(), AllocError> {
    let drawn = lay_out(alloc, history)?;
    write_head(&drawn, out)?;
    write_title(history, &drawn, out)?;
    write_lanes(history, &drawn, out)?;
    write_axis(&drawn, out)?;
    write_stays(&drawn, out)?;
    write_labels(history, &drawn, out)?;
    write_stretches(history, &drawn, out)?;
    write_notes(&drawn, out)?;
    write_legend(&drawn, out)?;
    out.push_str("</svg>\n")
}

/// The lines of objects.
fn write_stays(drawn: &Layout, out: &mut String) -> Result<(), AllocError> {
    for placed in &drawn.stays {
        write_stay(drawn, *placed, out)?;
    }
    Ok(())
}

/// What stands above the lines of objects.
fn write_labels(history: &History, drawn: &Layout, out: &mut String) -> Result<(), AllocError> {
    for placed in &drawn.stays {
        write_label(history, drawn, *placed, out)?;
    }
    Ok(())
}

/// The boxes of what processes run.
fn write_stretches(history: &History, drawn: &Layout, out: &mut String) -> Result<(), AllocError> {
    for stretch in &drawn.stretches {
        write_stretch(history, drawn, *stretch, out)?;
    }
    Ok(())
}

/// The crosses of failures.
fn write_notes(drawn: &Layout, out: &mut String) -> Result<(), AllocError> {
    for note in &drawn.notes {
        write_note(drawn, *note, out)?;
    }
    Ok(())
}

/// The size of the picture, its letters, and the head of an arrow.
fn write_head(drawn: &Layout, out: &mut String) -> Result<(), AllocError> {
    let width = LEFT + drawn.scale.width + 150.0;
    let height = drawn.bottom + 64.0;
    write!(
        out,
        "<svg xmlns=\"http://www.w3.org/2000/svg\" width=\"{width:.0}\" height=\"{height:.0}\" "
    )?;
    out.push_str(
        "font-family=\"DejaVu Sans, Verdana, sans-serif\" font-size=\"11\" fill=\"#111111\">\n",
    )?;
    out.push_str(
        "<defs><marker id=\"head\" markerUnits=\"userSpaceOnUse\" markerWidth=\"10\" markerHeight=\"8\" ",
    )?;
    out.push_str(
        "refX=\"10\" refY=\"4\" orient=\"auto\"><path d=\"M0,0 L10,4 L0,8 z\" fill=\"#b34700\"/></marker></defs>\n",
    )?;
    out.push_str("<rect width=\"100%\" height=\"100%\" fill=\"#ffffff\"/>\n")
}

/// How many entries there were, and how the run ended.
fn write_title(history: &History, drawn: &Layout, out: &mut String) -> Result<(), AllocError> {
    let entries = drawn.scale.entries;
    let nodes = history.nodes.len();
    write!(
        out,
        "<text x=\"12\" y=\"22\" font-size=\"14\" font-weight=\"bold\">"
    )?;
    write!(
        out,
        "{entries} entries, nodes: {nodes}, stop {}</text>\n",
        history.end
    )
}

/// A lane for each node, with its name and the kind of its machine.
fn write_lanes(history: &History, drawn: &Layout, out: &mut String) -> Result<(), AllocError> {
    let width = LEFT + drawn.scale.width + 138.0;
    for (place, (lane, node)) in drawn.lanes.iter().zip(history.nodes.iter()).enumerate() {
        let fill = if place % 2 == 0 { "#f3f3f3" } else { "#ffffff" };
        write_lane(*lane, width, fill, out)?;
        write_node(*lane, node, out)?;
    }
    Ok(())
}

/// The ground of a lane.
fn write_lane(lane: Lane, width: f64, fill: &str, out: &mut String) -> Result<(), AllocError> {
    let (top, height) = (lane.top, lane.bottom() - lane.top);
    write!(
        out,
        "<rect x=\"6\" y=\"{top:.1}\" width=\"{width:.1}\" height=\"{height:.1}\" "
    )?;
    write!(out, "fill=\"{fill}\" stroke=\"#bbbbbb\"/>\n")
}

/// The name of a lane's node, and the kind of its machine below it.
fn write_node(lane: Lane, node: &NodeSeen, out: &mut String) -> Result<(), AllocError> {
    let (name, kind) = (node.name.as_str(), node.kind);
    let (first, second) = (lane.top + 18.0, lane.top + 32.0);
    write!(
        out,
        "<text x=\"14\" y=\"{first:.1}\" font-size=\"13\" font-weight=\"bold\">"
    )?;
    write!(
        out,
        "{name}</text>\n<text x=\"14\" y=\"{second:.1}\">{kind}</text>\n"
    )
}

/// How many entries lie between two numbers of the axis.
fn tick_step(scale: Scale) -> u32 {
    let mut step = 1u32;
    for factor in [5, 2, 5, 2, 5, 2, 5, 2, 5, 2, 5, 2, 5, 2] {
        if scale.x(step) - scale.x(0) < 36.0 {
            step = step.saturating_mul(factor);
        }
    }
    step
}

/// Numbers of entries above the lanes, with thin lines through them.
fn write_axis(drawn: &Layout, out: &mut String) -> Result<(), AllocError> {
    let scale = drawn.scale;
    let bottom = drawn.bottom;
    let step = tick_step(scale);
    write!(out, "<text x=\"14\" y=\"54\">entry</text>\n")?;
    for tick in 0..scale.entries.div_ceil(at_least_one(step)) {
        let done = tick.saturating_mul(step);
        let entry = done.saturating_add(1);
        let x = scale.x(done);
        write!(
            out,
            "<path d=\"M{x:.1},58 V{bottom:.1}\" stroke=\"#dddddd\"/>"
        )?;
        write!(out, "<text x=\"{x:.1}\" y=\"54\">{entry}</text>\n")?;
    }
    Ok(())
}

/// The lane of a node.
fn lane_of(drawn: &Layout, node: u32) -> Option<Lane> {
    drawn.lanes.get(node as usize).copied()
}

/// The line of an object on a node, and the way on which it came.
fn write_stay(drawn: &Layout, placed: PlacedStay, out: &mut String) -> Result<(), AllocError> {
    let stay = placed.stay;
    let Some(lane) = lane_of(drawn, stay.node) else {
        return Ok(());
    };
    let y = lane.object(placed.row);
    let (from, until) = (drawn.scale.x(stay.from), drawn.scale.x(stay.until));
    write_way(drawn, placed, from, y, out)?;
    write!(
        out,
        "<path d=\"M{from:.1},{y:.1} H{until:.1}\" stroke=\"#0060a8\" stroke-width=\"2.5\"/>"
    )?;
    if stay.came_from.is_none() {
        write!(
            out,
            "<circle cx=\"{from:.1}\" cy=\"{y:.1}\" r=\"3\" fill=\"#0060a8\"/>"
        )?;
    }
    out.push('\n')
}

/// The number and the class of an object, above its line, with a light rim so that an arrow behind it doesn't hide it.
fn write_label(
    history: &History,
    drawn: &Layout,
    placed: PlacedStay,
    out: &mut String,
) -> Result<(), AllocError> {
    let stay = placed.stay;
    let Some(lane) = lane_of(drawn, stay.node) else {
        return Ok(());
    };
    let (x, y) = (
        drawn.scale.x(stay.from) + 7.0,
        lane.object(placed.row) - 4.0,
    );
    let (object, class) = (stay.object, history.class_name(stay.object));
    write!(
        out,
        "<text x=\"{x:.1}\" y=\"{y:.1}\" stroke=\"#ffffff\" stroke-width=\"3\" "
    )?;
    write!(out, "paint-order=\"stroke\">{object} {class}</text>\n")
}

/// The arrow from the stay before.
fn write_way(
    drawn: &Layout,
    placed: PlacedStay,
    x: f64,
    y: f64,
    out: &mut String,
) -> Result<(), AllocError> {
    let Some(before) = placed.stay.came_from else {
        return Ok(());
    };
    let Some(before) = drawn.stays.get(before) else {
        return Ok(());
    };
    let Some(lane) = lane_of(drawn, before.stay.node) else {
        return Ok(());
    };
    let start = lane.object(before.row);
    write!(
        out,
        "<path d=\"M{x:.1},{start:.1} V{y:.1}\" stroke=\"#b34700\" stroke-width=\"2\" "
    )?;
    out.push_str("fill=\"none\" marker-end=\"url(#head)\"/>")
}

/// The box of what a process runs on a node, with its number where there is room, and more where a pointer rests on it.
fn write_stretch(
    history: &History,
    drawn: &Layout,
    stretch: Stretch,
    out: &mut String,
) -> Result<(), AllocError> {
    let Some(lane) = lane_of(drawn, stretch.node) else {
        return Ok(());
    };
    let (x, y) = (drawn.scale.x(stretch.first.saturating_sub(1)), lane.boxes());
    let width = drawn.scale.x(stretch.last) - x;
    let fill = fill_of(stretch.process);
    let (process, first, last) = (stretch.process, stretch.first, stretch.last);
    let node = history.node_name(stretch.node);
    let instructions = stretch.instructions;
    write!(
        out,
        "<g><title>process {process} on {node}, entries {first} to {last}, "
    )?;
    write!(out, "instructions: {instructions}</title>")?;
    write!(
        out,
        "<rect x=\"{x:.1}\" y=\"{y:.1}\" width=\"{width:.1}\" height=\"18\" "
    )?;
    write!(
        out,
        "fill=\"{fill}\" stroke=\"#555555\" stroke-width=\"0.6\"/>"
    )?;
    write_process(process, x + width / 2.0, y + 13.0, width, out)?;
    out.push_str("</g>\n")
}

/// The number of a process around the middle of its box, with the word where there is room for it.
fn write_process(
    process: u32,
    middle: f64,
    base: f64,
    width: f64,
    out: &mut String,
) -> Result<(), AllocError> {
    if width < 2.0 * LETTER {
        return Ok(());
    }
    let word = if width < 10.0 * LETTER {
        ""
    } else {
        "process "
    };
    write!(
        out,
        "<text x=\"{middle:.1}\" y=\"{base:.1}\" text-anchor=\"middle\">{word}{process}</text>"
    )
}

/// The fill of a process's boxes.
fn fill_of(process: u32) -> &'static str {
    FILLS[process as usize % 6]
}

/// A cross where a process failed, and why.
fn write_note(drawn: &Layout, note: PlacedNote, out: &mut String) -> Result<(), AllocError> {
    let Some(lane) = lane_of(drawn, note.node) else {
        return Ok(());
    };
    let (x, y) = (drawn.scale.x(note.entry), lane.note(note.row));
    write_cross(x, y, lane.boxes() + 18.0, out)?;
    write_reason(note, x, y, out)
}

/// A cross to the left of a place, and a line up to the boxes.
fn write_cross(x: f64, y: f64, boxes: f64, out: &mut String) -> Result<(), AllocError> {
    let (left, middle, right) = (x - 13.0, x - 8.0, x - 3.0);
    let (up, mark) = (y - 10.0, y - 12.0);
    write!(
        out,
        "<path d=\"M{left:.1},{up:.1} L{right:.1},{y:.1} M{left:.1},{y:.1} L{right:.1},{up:.1} "
    )?;
    write!(
        out,
        "M{middle:.1},{boxes:.1} V{mark:.1}\" stroke=\"#111111\" stroke-width=\"2.5\"/>"
    )
}

/// Why a process failed, to the left of its cross or to the right.
fn write_reason(note: PlacedNote, x: f64, y: f64, out: &mut String) -> Result<(), AllocError> {
    let (process, line, why) = (note.process, note.line, note.why);
    let (anchor, at) = if note.is_left {
        ("end", x - 18.0)
    } else {
        ("start", x + 2.0)
    };
    write!(
        out,
        "<text x=\"{at:.1}\" y=\"{y:.1}\" font-weight=\"bold\" text-anchor=\"{anchor}\" stroke=\"#ffffff\" stroke-width=\"3\" paint-order=\"stroke\">"
    )?;
    write!(
        out,
        "process {process} failed in line {line}: {why}</text>\n"
    )
}

/// What the marks mean, in lines about a line of letters.
const LEGEND: &str =
    "<rect x='14' y='-13' width='22' height='18' fill='#f5c76b' stroke='#555555' stroke-width='0.6'/>
<text x='22'>0</text><text x='44'>process 0 runs here</text>
<path d='M190,-4 H222' stroke='#0060a8' stroke-width='2.5'/><circle cx='190' cy='-4' r='3' fill='#0060a8'/>
<text x='230'>an object is made, and is here</text>
<path d='M440,-16 V8' stroke='#b34700' stroke-width='2' marker-end='url(#head)'/><text x='450'>it moves</text>
<path d='M530,-10 L540,0 M530,0 L540,-10' stroke='#111111' stroke-width='2.5'/><text x='548'>a process fails</text>
";

/// What the marks mean, below the lanes.
fn write_legend(drawn: &Layout, out: &mut String) -> Result<(), AllocError> {
    let base = drawn.bottom + 30.0;
    write!(out, "<g transform=\"translate(0,{base:.1})\">")?;
    out.push_str(LEGEND)?;
    out.push_str("</g>\n")
}
