//! The lines of the ranks, the times above them, the bands of collectives, and the rank that is stuck.

use crate::pen::Pen;
use crate::scale::{LETTER, Scale};
use crate::tooltip::name_of;
use crate::whole::Scene;
use pb_draw_layout::{Band, Layout, narrow, stuck_rank};
use pb_draw_log::Log;
use pb_text::NoMemory;

/// How many columns there are from one number above them to the next.
const STEP: usize = 5;

/// A line for each rank.
pub fn put_lines(pen: &mut Pen, scale: &Scale) -> Result<(), NoMemory> {
    pen.put(b"<path class=\"rank\" d=\"")?;
    for row in 0..scale.rows {
        pen.put(b"M")?;
        pen.put_point(scale.left, scale.y(row))?;
        pen.put(b"H")?;
        pen.put_number(scale.right())?;
    }
    pen.put(b"\"/>\n")
}

/// The number of each rank in front of its line.
pub fn put_ranks(pen: &mut Pen, scale: &Scale, layout: &Layout) -> Result<(), NoMemory> {
    pen.put(b"<g class=\"ends\">\n")?;
    for (row, rank) in layout.ranks.iter().enumerate() {
        pen.open_label(
            scale.left.saturating_sub(6),
            scale.y(narrow(row)).saturating_add(4),
        )?;
        pen.put(b"rank ")?;
        pen.put_number(u64::from(*rank))?;
        pen.put(b"</text>\n")?;
    }
    pen.put(b"</g>\n")
}

/// The time of every fifth column above it.
pub fn put_times(pen: &mut Pen, scale: &Scale, layout: &Layout) -> Result<(), NoMemory> {
    pen.put(b"<g class=\"times\">\n")?;
    for (column, time) in layout.times.iter().enumerate().step_by(STEP) {
        pen.open_label(scale.x(narrow(column)), 16)?;
        pen.put_number(u64::from(*time))?;
        pen.put(b"</text>\n")?;
    }
    pen.put(b"</g>\n")
}

/// A band for each collective, with its name where it is broad enough.
pub fn put_bands(pen: &mut Pen, scale: &Scale, scene: &Scene<'_>) -> Result<(), NoMemory> {
    pen.put(b"<g class=\"bands\">\n")?;
    for band in &scene.layout.bands {
        put_band(pen, scale, scene.log, band)?;
    }
    pen.put(b"</g>\n")
}

fn put_band(pen: &mut Pen, scale: &Scale, log: &Log, band: &Band) -> Result<(), NoMemory> {
    let name = name_of(log, band.name);
    let left = scale.x(band.first).saturating_sub(9);
    let above = scale.y(band.top).saturating_sub(15);
    let width = scale
        .x(band.last)
        .saturating_sub(scale.x(band.first))
        .saturating_add(18);
    pen.put(b"<rect x=\"")?;
    pen.put_number(left)?;
    pen.put(b"\" y=\"")?;
    pen.put_number(above)?;
    pen.put(b"\" width=\"")?;
    pen.put_number(width)?;
    pen.put(b"\" height=\"")?;
    pen.put_number(
        scale
            .y(band.bottom)
            .saturating_sub(scale.y(band.top))
            .saturating_add(30),
    )?;
    pen.put(b"\" rx=\"6\"><title>")?;
    pen.put(name)?;
    pen.put(b": ")?;
    pen.put_number(u64::from(band.entries))?;
    pen.put(b" entered, ")?;
    pen.put_number(u64::from(band.leaves))?;
    pen.put(b" left</title></rect>\n")?;
    if LETTER.saturating_mul(name.len() as u64) <= width {
        pen.put_label(left, above.saturating_sub(3), name)?;
    }
    Ok(())
}

/// A cross at the end of the line of the rank that is stuck.
pub fn put_stuck(pen: &mut Pen, scale: &Scale, scene: &Scene<'_>) -> Result<(), NoMemory> {
    let line = match scene.ending {
        Some(line) => line,
        None => return Ok(()),
    };
    let row = match stuck_rank(line) {
        Some(rank) => scene.layout.ranks.binary_search(&rank),
        None => return Ok(()),
    };
    if let Ok(row) = row {
        let x = scale.right().saturating_add(8);
        let y = scale.y(narrow(row));
        pen.put(b"<g class=\"stuck\"><path d=\"M")?;
        pen.put_point(x.saturating_sub(6), y.saturating_sub(6))?;
        pen.put(b"l12 12m0-12l-12 12\"><title>")?;
        pen.put_text(line)?;
        pen.put(b"</title></path>\n")?;
        pen.put_label(x.saturating_add(16), y.saturating_add(4), b"stuck")?;
        pen.put(b"</g>\n")?;
    }
    Ok(())
}
