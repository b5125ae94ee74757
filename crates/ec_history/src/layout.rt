//! Where the parts of a picture stand. Lengths are pixels; x goes to the right with time, y down over the nodes' lanes.
use crate::course::{Stay, Stretch, entry_count, object_stays, stretches};
use crate::history::{Actor, Deed, EntrySeen, History};
use std::alloc::{AllocError, Global};

/// Where the first entry begins.
pub const LEFT: f64 = 112.0;

/// Where the first lane begins.
const TOP: f64 = 64.0;

/// How high a row of a lane is.
pub const ROW: f64 = 22.0;

/// How wide a letter is, roughly.
pub const LETTER: f64 = 6.6;

/// The scale of time.
#[derive(Clone, Copy)]
pub struct Scale {
    pub entries: u32,
    pub width: f64,
}

/// A stay, in a row of its lane, from 0.
#[derive(Clone, Copy)]
pub struct PlacedStay {
    pub stay: Stay,
    pub row: u32,
}

/// A failure on a node by an entry, in a row of its lane. Its words stand to the left of its cross, or to the right.
#[derive(Clone, Copy)]
pub struct PlacedNote {
    pub node: u32,
    pub entry: u32,
    pub process: u32,
    pub line: u32,
    pub why: &'static str,
    pub row: u32,
    pub is_left: bool,
}

/// The lane of a node: its top, and how many rows it has for failures and for objects. Its boxes stand above these.
#[derive(Clone, Copy)]
pub struct Lane {
    pub top: f64,
    pub note_rows: u32,
    pub object_rows: u32,
}

/// All that is drawn, and where.
#[derive(Drop)]
pub struct Layout {
    pub scale: Scale,
    pub lanes: Vec<Lane>,
    pub stays: Vec<PlacedStay>,
    pub notes: Vec<PlacedNote>,
    pub stretches: Vec<Stretch>,
    /// Where the last lane ends.
    pub bottom: f64,
}

/// How far the rows of each lane are taken, by lane and row.
type Taken = Vec<Vec<f64>>;

impl Scale {
    /// Where time is, after so many entries.
    pub fn x(self, done: u32) -> f64 {
        LEFT + self.width * f64::from(done) / f64::from(self.entries.max(1))
    }
}

impl Lane {
    /// The top of its boxes.
    pub fn boxes(self) -> f64 {
        self.top + 8.0
    }

    /// The line of letters of a row of failures.
    pub fn note(self, row: u32) -> f64 {
        self.top + 42.0 + ROW * f64::from(row)
    }

    /// The line of an object's row.
    pub fn object(self, row: u32) -> f64 {
        self.note(self.note_rows) + 4.0 + ROW * f64::from(row)
    }

    /// Its end.
    pub fn bottom(self) -> f64 {
        self.object(self.object_rows) - 6.0
    }
}

/// The layout of a history.
pub fn lay_out(alloc: Global, history: &History) -> Result<Layout, AllocError> {
    let scale = scale_for(entry_count(history));
    let mut taken = no_rows(alloc, history)?;
    let notes = place_notes(alloc, history, scale, &mut taken)?;
    let mut rows = no_rows(alloc, history)?;
    let stays = place_stays(alloc, history, scale, &mut rows)?;
    let lanes = stack_lanes(alloc, &taken, &rows)?;
    let bottom = match lanes.last() {
        Some(lane) => lane.bottom(),
        None => TOP,
    };
    Ok(Layout {
        scale,
        lanes,
        stays,
        notes,
        stretches: stretches(alloc, history)?,
        bottom,
    })
}

/// So many entries, each 15 pixels wide, but all of them together from 640 to 1,800.
fn scale_for(entries: u32) -> Scale {
    let wide = 15.0 * f64::from(entries);
    let width = if wide < 640.0 {
        640.0
    } else if wide > 1800.0 {
        1800.0
    } else {
        wide
    };
    Scale { entries, width }
}

/// A lane without rows for each node.
fn no_rows(alloc: Global, history: &History) -> Result<Taken, AllocError> {
    let mut taken = Vec::new(alloc);
    for _ in &history.nodes {
        taken.push(Vec::new(alloc))?;
    }
    Ok(taken)
}

/// The first row of a lane that is free from a place on, which is then taken up to another place.
fn take_row(taken: &mut Taken, node: u32, from: f64, to: f64) -> Result<u32, AllocError> {
    let Some(rows) = taken.get_mut(node as usize) else {
        return Ok(0);
    };
    let mut number = 0u32;
    for row in rows.iter_mut() {
        if *row <= from {
            *row = to;
            return Ok(number);
        }
        number = number.saturating_add(1);
    }
    rows.push(to)?;
    Ok(number)
}

/// The width of a text of so many letters.
fn text_width(letters: usize) -> f64 {
    match u32::try_from(letters) {
        Ok(letters) => LETTER * f64::from(letters),
        Err(_) => 0.0,
    }
}

/// Each stay in a row that is free for as long as it lasts, and for its label.
fn place_stays(
    alloc: Global,
    history: &History,
    scale: Scale,
    rows: &mut Taken,
) -> Result<Vec<PlacedStay>, AllocError> {
    let mut placed = Vec::new(alloc);
    for stay in &object_stays(alloc, history)? {
        let from = scale.x(stay.from);
        let label = text_width(history.class_name(stay.object).len().saturating_add(6));
        let until = scale.x(stay.until) + 10.0;
        let to = if from + label > until {
            from + label
        } else {
            until
        };
        let row = take_row(rows, stay.node, from, to)?;
        placed.push(PlacedStay { stay: *stay, row })?;
    }
    Ok(placed)
}

/// The failure that an entry was, where it was one.
fn note_of(entry: &EntrySeen) -> Option<PlacedNote> {
    let stop = entry.stop.as_ref()?;
    let Actor::Process(process) = entry.actor else {
        return None;
    };
    for deed in &entry.deeds {
        if let Deed::Failed { why, line, .. } = deed {
            return Some(PlacedNote {
                node: stop.node,
                entry: entry.number,
                process,
                line: *line,
                why: *why,
                row: 0,
                is_left: false,
            });
        }
    }
    None
}

/// Each failure in a row that is free for its words.
fn place_notes(
    alloc: Global,
    history: &History,
    scale: Scale,
    taken: &mut Taken,
) -> Result<Vec<PlacedNote>, AllocError> {
    let mut placed = Vec::new(alloc);
    for entry in &history.entries {
        if let Some(mut note) = note_of(entry) {
            let x = scale.x(note.entry);
            let width = text_width(note.why.len().saturating_add(42));
            note.is_left = x - width > LEFT;
            let (from, to) = if note.is_left {
                (x - width, x)
            } else {
                (x - 20.0, x + width)
            };
            note.row = take_row(taken, note.node, from, to)?;
            placed.push(note)?;
        }
    }
    Ok(placed)
}

/// The lanes, one below another.
fn stack_lanes(alloc: Global, notes: &Taken, objects: &Taken) -> Result<Vec<Lane>, AllocError> {
    let mut lanes = Vec::new(alloc);
    let mut top = TOP;
    for (notes, objects) in notes.iter().zip(objects.iter()) {
        let lane = Lane {
            top,
            note_rows: u32::try_from(notes.len()).unwrap_or(0),
            object_rows: u32::try_from(objects.len()).unwrap_or(0),
        };
        top = lane.bottom();
        lanes.push(lane)?;
    }
    Ok(lanes)
}
