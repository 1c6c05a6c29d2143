//! What stands below the rows.

use crate::frame::put_legend;
use crate::pen::Pen;
use crate::scale::{LETTER, Scale};
use crate::tooltip::name_of;
use crate::whole::Scene;
use pb_text::NoMemory;

/// From one line to the next, in pixels.
const LINE: u64 = 16;

/// Where the lines begin.
const LEFT: u64 = 14;

/// From one column of numbers to the next, in pixels.
const COLUMN: u64 = 84;

/// How many lines stand there besides those of labels.
const OTHER_LINES: u64 = 7;

/// How high the part below the rows is.
pub fn height(scene: &Scene<'_>) -> u64 {
    let labels = scene.sums.labels.len() as u64;
    let more = u64::from(scene.sums.more > 0);
    LINE.saturating_mul(OTHER_LINES.saturating_add(labels).saturating_add(more))
}

/// What the marks mean, which events are drawn, how the run ended, and how much is sent, of the whole log.
pub fn put_sums(pen: &mut Pen, scale: &Scale, scene: &Scene<'_>) -> Result<(), NoMemory> {
    let y = scale.bottom();
    put_legend(pen, y)?;
    let y = y.saturating_add(LINE).saturating_add(LINE / 2);
    put_extent(pen, scene, y)?;
    let y = y.saturating_add(LINE);
    put_ending(pen, scene, y)?;
    put_table(pen, scene, y.saturating_add(LINE).saturating_add(LINE / 4))
}

/// How much is sent, of all labels and of each.
fn put_table(pen: &mut Pen, scene: &Scene<'_>, head: u64) -> Result<(), NoMemory> {
    let sums = scene.sums;
    let right = name_width(scene);
    put_heads(pen, right, head)?;
    let mut y = head.saturating_add(LINE);
    let all = [sums.messages, sums.words, u64::from(sums.chain)];
    put_counts(pen, right, y, b"all labels", &all)?;
    for sum in &sums.labels {
        y = y.saturating_add(LINE);
        let counts = [sum.messages, sum.words, u64::from(sum.chain)];
        put_counts(pen, right, y, name_of(scene.log, sum.name), &counts)?;
    }
    if sums.more > 0 {
        pen.open_label(LEFT, y.saturating_add(LINE))?;
        pen.put_number(sums.more as u64)?;
        pen.put(b" labels more</text>\n")?;
    }
    Ok(())
}

/// How far the names of labels reach.
fn name_width(scene: &Scene<'_>) -> u64 {
    let mut width: u64 = 96;
    for sum in &scene.sums.labels {
        let letters = name_of(scene.log, sum.name).len() as u64;
        width = width.max(letters.saturating_mul(LETTER));
    }
    width.saturating_add(LEFT)
}

/// How many events are drawn, and how long the longest chain is.
fn put_extent(pen: &mut Pen, scene: &Scene<'_>, y: u64) -> Result<(), NoMemory> {
    pen.open_label(LEFT, y)?;
    pen.put_number(scene.layout.entries.len() as u64)?;
    pen.put(b" of ")?;
    pen.put_number(scene.log.entries.len() as u64)?;
    pen.put(b" events are drawn; the longest chain has ")?;
    pen.put_number(scene.layout.chain_length as u64)?;
    pen.put(b" events</text>\n")
}

/// How the run ended.
fn put_ending(pen: &mut Pen, scene: &Scene<'_>, y: u64) -> Result<(), NoMemory> {
    if let Some(line) = scene.ending {
        pen.open_label(LEFT, y)?;
        pen.put(b"the log ends with: ")?;
        pen.put_text(line)?;
        pen.put(b"</text>\n")?;
    }
    Ok(())
}

/// The heads of the columns of numbers.
fn put_heads(pen: &mut Pen, right: u64, y: u64) -> Result<(), NoMemory> {
    pen.put_label(LEFT, y, b"in the whole log")?;
    pen.put(b"<g class=\"numbers\">\n")?;
    pen.put_label(right.saturating_add(COLUMN), y, b"messages")?;
    pen.put_label(right.saturating_add(COLUMN * 2), y, b"words")?;
    pen.put_label(right.saturating_add(COLUMN * 3), y, b"on one chain")?;
    pen.put(b"</g>\n")
}

/// A line of the sums.
fn put_counts(
    pen: &mut Pen,
    right: u64,
    y: u64,
    name: &[u8],
    counts: &[u64],
) -> Result<(), NoMemory> {
    pen.put_label(LEFT, y, name)?;
    pen.put(b"<g class=\"numbers\">\n")?;
    let mut x = right;
    for count in counts {
        x = x.saturating_add(COLUMN);
        pen.open_label(x, y)?;
        pen.put_number(*count)?;
        pen.put(b"</text>\n")?;
    }
    pen.put(b"</g>\n")
}
