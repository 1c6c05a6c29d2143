//! The arrows of messages.

use crate::pen::Pen;
use crate::scale::Scale;
use crate::tooltip::put_message;
use crate::whole::Scene;
use pb_draw_layout::{Layout, narrow};
use pb_draw_log::{Deed, Entry};
use pb_draw_times::link_at;
use pb_text::NoMemory;
use std::alloc::Global;

/// A point, in pixels from the left and from above.
#[derive(Clone, Copy)]
pub struct Point {
    pub x: u64,
    pub y: u64,
}

/// Whether the other end of a message is in the log.
#[derive(Clone, Copy)]
pub enum Form {
    /// It is.
    Closed,
    /// Nobody took it, or nobody sent it.
    Open,
}

/// An arrow.
#[derive(Clone, Copy)]
pub struct Arrow {
    /// The event that it begins at, or ends at, by its place among those that are drawn.
    pub index: usize,
    /// Where it begins.
    pub start: Point,
    /// Where its head is.
    pub end: Point,
    /// The rows of both ends, where both ranks have one.
    pub rows: Option<(u32, u32)>,
    /// Whether the other end is in the log.
    pub form: Form,
}

/// The arrows of all messages: from each send to its receive, where both are drawn. A message of which one end is drawn has an
/// arrow from it or to it that is one column long, and shorter where the other rank has no row.
pub fn arrows_of(alloc: Global, scale: &Scale, scene: &Scene<'_>) -> Result<Vec<Arrow>, NoMemory> {
    let mut all = Vec::new(alloc);
    for (index, entry) in scene.layout.entries.iter().enumerate() {
        if let Some(arrow) = arrow_of(scale, scene, index, entry) {
            all.push(arrow)?;
        }
    }
    Ok(all)
}

/// The arrow of a send, or of a receive whose send isn't drawn.
fn arrow_of(scale: &Scale, scene: &Scene<'_>, index: usize, entry: &Entry) -> Option<Arrow> {
    let layout = scene.layout;
    match (entry.step.deed, link_at(&layout.mates, index)) {
        (Deed::Send(_), Some(mate)) => whole(scale, layout, index, mate),
        (Deed::Send(to), None) => {
            let loose = loose_end(scale, layout, index, entry.step.rank, to)?;
            Some(loose.outgoing(index, form_of(scene, index)))
        }
        (Deed::Recv(from), None) => {
            let loose = loose_end(scale, layout, index, entry.step.rank, from)?;
            Some(loose.incoming(index, form_of(scene, index)))
        }
        (Deed::Recv(_), Some(_)) => None,
        (Deed::Choose(_) | Deed::Run | Deed::Enter | Deed::Leave, _) => None,
    }
}

/// Whether the other end of a message is in the log.
fn form_of(scene: &Scene<'_>, index: usize) -> Form {
    match scene.layout.places.get(index) {
        Some(place) if link_at(&scene.times.mates, *place).is_some() => Form::Closed,
        _ => Form::Open,
    }
}

fn whole(scale: &Scale, layout: &Layout, index: usize, mate: usize) -> Option<Arrow> {
    let (from, to) = (*layout.rows.get(index)?, *layout.rows.get(mate)?);
    Some(Arrow {
        index,
        start: Point {
            x: scale.x(*layout.columns.get(index)?),
            y: scale.y(from),
        },
        end: Point {
            x: scale.x(*layout.columns.get(mate)?),
            y: scale.y(to),
        },
        rows: Some((from, to)),
        form: Form::Closed,
    })
}

/// The drawn end of a message whose other end isn't drawn, and how its arrow lies.
#[derive(Clone, Copy)]
struct Loose {
    /// The event.
    here: Point,
    /// How far from above the other end of the arrow is.
    y: u64,
    /// How far to the right or to the left it is.
    reach: u64,
    /// The row of the event.
    row: u32,
    /// The row of the other rank.
    peer_row: Option<u32>,
}

impl Loose {
    /// The arrow of a send.
    fn outgoing(self, index: usize, form: Form) -> Arrow {
        Arrow {
            index,
            start: self.here,
            end: Point {
                x: self.here.x.saturating_add(self.reach),
                y: self.y,
            },
            rows: match self.peer_row {
                Some(other) => Some((self.row, other)),
                None => None,
            },
            form,
        }
    }

    /// The arrow of a receive.
    fn incoming(self, index: usize, form: Form) -> Arrow {
        Arrow {
            index,
            start: Point {
                x: self.here.x.saturating_sub(self.reach),
                y: self.y,
            },
            end: self.here,
            rows: match self.peer_row {
                Some(other) => Some((other, self.row)),
                None => None,
            },
            form,
        }
    }
}

/// How the arrow of a message lies of which this end alone is drawn.
fn loose_end(scale: &Scale, layout: &Layout, index: usize, rank: u32, peer: u32) -> Option<Loose> {
    let row = *layout.rows.get(index)?;
    let here = Point {
        x: scale.x(*layout.columns.get(index)?),
        y: scale.y(row),
    };
    let peer_row = match layout.ranks.binary_search(&peer) {
        Ok(other) => Some(narrow(other)),
        Err(_) => None,
    };
    let y = match peer_row {
        Some(other) if other != row => scale.y(other),
        _ if peer < rank => here.y.saturating_sub(scale.row / 2),
        _ => here.y.saturating_add(scale.row / 2),
    };
    Some(Loose {
        here,
        y,
        reach: reach(scale, peer_row),
        row,
        peer_row,
    })
}

/// How far an arrow goes whose other end isn't drawn.
fn reach(scale: &Scale, peer_row: Option<u32>) -> u64 {
    match peer_row {
        Some(_) => scale.column,
        None => scale.column / 2,
    }
}

/// All arrows, first those of messages whose both ends are in the log.
pub fn put_arrows(pen: &mut Pen, scene: &Scene<'_>, arrows: &[Arrow]) -> Result<(), NoMemory> {
    pen.put(b"<g class=\"arrows\">\n")?;
    put_form(pen, scene, arrows, Form::Closed)?;
    pen.put(b"</g>\n<g class=\"arrows open\">\n")?;
    put_form(pen, scene, arrows, Form::Open)?;
    pen.put(b"</g>\n")
}

fn put_form(
    pen: &mut Pen,
    scene: &Scene<'_>,
    arrows: &[Arrow],
    form: Form,
) -> Result<(), NoMemory> {
    for arrow in arrows {
        if arrow.form == form {
            put_arrow(pen, scene, arrow)?;
        }
    }
    Ok(())
}

fn put_arrow(pen: &mut Pen, scene: &Scene<'_>, arrow: &Arrow) -> Result<(), NoMemory> {
    pen.put(b"<path d=\"M")?;
    pen.put_point(arrow.start.x, arrow.start.y)?;
    pen.put(b"L")?;
    pen.put_point(arrow.end.x, arrow.end.y)?;
    pen.put(b"\">")?;
    if let Some(entry) = scene.layout.entries.get(arrow.index) {
        put_message(pen, scene.bytes, scene.log, entry)?;
    }
    pen.put(b"</path>\n")
}
