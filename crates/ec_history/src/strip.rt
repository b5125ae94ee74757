//! A map as lines of text: a line for each node with the processes that ran there, and below it a line for each object that was there.
use crate::course::{Stay, Stretch, at_least_one, entry_count, number_at, object_stays, stretches};
use crate::history::{Deed, EntrySeen, History};
use std::alloc::{AllocError, Global};

/// How many columns there are at most.
const COLUMNS: u32 = 100;

/// How wide names stand before them.
const NAMES: usize = 24;

/// How entries fall into columns: so many columns, and so many entries in each.
#[derive(Clone, Copy)]
struct Grid {
    columns: u32,
    per_column: u32,
}

/// What is drawn.
#[derive(Drop)]
struct Drawn {
    grid: Grid,
    stays: Vec<Stay>,
    stretches: Vec<Stretch>,
}

/// The lines of a history's map.
pub fn write_strip(alloc: Global, history: &History, out: &mut String) -> Result<(), AllocError> {
    let entries = entry_count(history);
    let per_column = at_least_one(entries.div_ceil(COLUMNS));
    let grid = Grid {
        columns: entries.div_ceil(per_column),
        per_column,
    };
    let drawn = Drawn {
        grid,
        stays: object_stays(alloc, history)?,
        stretches: stretches(alloc, history)?,
    };
    write!(
        out,
        "{entries} entries, {per_column} to a column; stop {}\n",
        history.end
    )?;
    write_axis(grid, out)?;
    write_nodes(alloc, history, &drawn, out)?;
    out.push_str(LEGEND)
}

/// What the marks mean.
const LEGEND: &str =
    "0-9 a-z: the process that ran there (a for 10, * above 35, + several); X: one failed there
-: the object is there; o: it was made; >: it came\n";

/// The number of the first entry of each tenth column.
fn write_axis(grid: Grid, out: &mut String) -> Result<(), AllocError> {
    write_name("entry", out)?;
    for tenth in 0..grid.columns.div_ceil(10) {
        let entry = tenth
            .saturating_mul(10)
            .saturating_mul(grid.per_column)
            .saturating_add(1);
        write!(out, "{entry:<10}")?;
    }
    out.push('\n')
}

/// A name, and blanks behind it up to the first column.
fn write_name(name: &str, out: &mut String) -> Result<(), AllocError> {
    out.push_str(name)?;
    for _ in name.len()..NAMES {
        out.push(' ')?;
    }
    Ok(())
}

/// The lines of each node.
fn write_nodes(
    alloc: Global,
    history: &History,
    drawn: &Drawn,
    out: &mut String,
) -> Result<(), AllocError> {
    for (place, node) in history.nodes.iter().enumerate() {
        let Ok(number) = u32::try_from(place) else {
            return Ok(());
        };
        let (name, kind) = (node.name.as_str(), node.kind);
        write_name(format!(in alloc; "{name} {kind}")?.as_str(), out)?;
        write_node(history, drawn, number, out)?;
        write_objects(alloc, history, drawn, number, out)?;
    }
    Ok(())
}

/// What ran on a node, a mark for each column.
fn write_node(
    history: &History,
    drawn: &Drawn,
    node: u32,
    out: &mut String,
) -> Result<(), AllocError> {
    for column in 0..drawn.grid.columns {
        let first = drawn.grid.first(column);
        let last = first.saturating_add(drawn.grid.per_column.saturating_sub(1));
        let mark = if failed_within(history, node, first, last) {
            'X'
        } else {
            running_mark(&drawn.stretches, node, first, last)
        };
        out.push(mark)?;
    }
    out.push('\n')
}

impl Grid {
    /// The number of the first entry of a column.
    fn first(self, column: u32) -> u32 {
        column.saturating_mul(self.per_column).saturating_add(1)
    }
}

/// Whether an entry within these failed on a node.
fn failed_within(history: &History, node: u32, first: u32, last: u32) -> bool {
    history.entries.iter().any(|entry| entry.number >= first
        && entry.number <= last
        && failed_on(entry, node))
}

/// Whether a process failed by an entry on a node.
fn failed_on(entry: &EntrySeen, node: u32) -> bool {
    let Some(stop) = &entry.stop else {
        return false;
    };
    stop.node == node && entry.deeds.iter().any(is_failure)
}

fn is_failure(deed: &Deed) -> bool {
    matches!(deed, Deed::Failed { .. })
}

/// The mark of the process that ran on a node within these entries.
fn running_mark(stretches: &[Stretch], node: u32, first: u32, last: u32) -> char {
    let mut found = None;
    for stretch in stretches {
        if stretch.node == node && stretch.first <= last && stretch.last >= first {
            match found {
                Some(other) if other != stretch.process => return '+',
                _ => found = Some(stretch.process),
            }
        }
    }
    match found {
        Some(process) => char::from_digit(process, 36).unwrap_or('*'),
        None => '.',
    }
}

/// A line for each object that was on a node.
fn write_objects(
    alloc: Global,
    history: &History,
    drawn: &Drawn,
    node: u32,
    out: &mut String,
) -> Result<(), AllocError> {
    for place in 0..history.objects.len() {
        let object = number_at(place);
        let here = stays_on(alloc, &drawn.stays, object, node)?;
        if !here.is_empty() {
            let class = history.class_name(object);
            write_name(format!(in alloc; "  {object} {class}")?.as_str(), out)?;
            write_stays(drawn.grid, &here, out)?;
        }
    }
    Ok(())
}

/// The stays of an object on a node.
fn stays_on(
    alloc: Global,
    stays: &[Stay],
    object: u32,
    node: u32,
) -> Result<Vec<Stay>, AllocError> {
    let mut here = Vec::new(alloc);
    for stay in stays {
        if stay.object == object && stay.node == node {
            here.push(*stay)?;
        }
    }
    Ok(here)
}

/// Whether an object is on a node, a mark for each column.
fn write_stays(grid: Grid, here: &[Stay], out: &mut String) -> Result<(), AllocError> {
    for column in 0..grid.columns {
        out.push(stay_mark(here, grid.first(column), grid.per_column))?;
    }
    out.push('\n')
}

/// The mark of a column that begins with an entry.
fn stay_mark(here: &[Stay], first: u32, per_column: u32) -> char {
    let from = first.saturating_sub(1);
    let until = from.saturating_add(per_column);
    let mut mark = ' ';
    for stay in here {
        if stay.from >= from && stay.from < until {
            mark = match stay.came_from {
                Some(_) => '>',
                None if stay.from > 0 => 'o',
                None => '-',
            };
        } else if mark == ' ' && stay.from < until && stay.until > from {
            mark = '-';
        }
    }
    mark
}
